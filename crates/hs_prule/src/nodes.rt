//! Nodes at the variables of slots.

ghost use Rattle.std.specs.Prelude.{◌≡◌, ◌+◌, ◌-◌, ◌≤◌, ◌^◌, ◌∷◌, [], length, slice_set, IfOk};
ghost use Rattle.hs_core.specs.Machine.{numbered, picked};
ghost use Rattle.hs_rules.specs.Parts.{plain};
ghost use Rattle.hs_program_rules.specs.States.{number_var};
ghost use Rattle.hs_program_rules.specs.Parts.{new_fields, node_atom};
ghost use Rattle.hs_sides.specs.Answers.{IsGiven};

use hs_heap::{Atom, Defs, Disjunct, Formula};
use hs_program_parts::{fields, new_vars, node_atom};
use hs_pure::{NoMemory, Var};
use hs_sides::{RuleError, only};
use sqlite_items::Items;
use std::alloc::Global;

const MAX_NEXT: u32 = 1 << 30;

// New variables for the fields of a data type. `NotApplicable` comes exactly where their numbers would pass 2^30.
pub fn new_fields(alloc: Global, defs: &Defs, kind: u32, next: u32) -> Result<Items<Var>, RuleError>
    requires { next ≤ 2 ^ 30 }
    ensures { IsGiven (next + length (new_fields defs.now kind next) ≤ 2 ^ 30) (new_fields defs.now kind next) result }
{
    let count = fields(defs, kind);
    if count > (MAX_NEXT - next) as usize {
        return Err(RuleError::NotApplicable);
    }
    Ok(new_vars(alloc, next, count as u32)?)
}

// The variable of a field, by number from 1; where there is none, the number variable 0.
pub fn field_var(vs: &[Var], field: u32) -> Var
    ensures { result ≡ numbered vs.now field (number_var 0) }
{
    if field == 0 {
        return Var {
            number: 0,
            bag: false,
        };
    }
    match vs.get(field as usize - 1) {
        Some(v) => *v,
        None => Var {
            number: 0,
            bag: false,
        },
    }
}

// The variables of fields, with another in the place of one, by number from 1.
pub fn with_field(alloc: Global, vs: &[Var], field: u32, v: Var) -> Result<Items<Var>, NoMemory>
    ensures { IfOk result (λ all. all ≡ slice_set vs.now (field - 1) v) }
{
    let mut all = Items::from_slice(alloc, vs)?;
    put_field(&mut all, field, v);
    Ok(all)
}

fn put_field(vs: &mut Items<Var>, field: u32, v: Var)
    ensures { vs.new ≡ slice_set vs.old (field - 1) v }
{
    let place = field.saturating_sub(1) as usize;
    if place < vs.len() {
        vs.set(place, v);
    }
}

// One node alone.
pub fn node_alone(alloc: Global, root: Var, kind: u32, args: &[Var]) -> Result<Formula, NoMemory>
    ensures { IfOk result (λ f. f ≡ plain (node_atom root kind args.now ∷ []) []) }
{
    let mut atoms = Items::new(alloc);
    atoms.push(node_atom(alloc, root, kind, args)?)?;
    only(
        alloc,
        Disjunct {
            bound: Items::new(alloc),
            atoms,
            pure: Items::new(alloc),
        },
    )
}

fn numbered(args: &[u32], n: u32) -> u32
    ensures { result ≡ numbered args.now n 0 }
{
    if n == 0 {
        return 0;
    }
    match args.get(n as usize - 1) {
        Some(slot) => *slot,
        None => 0,
    }
}

// The argument slots of the reference parameters.
pub fn picked(alloc: Global, args: &[u32], refs: &[u32]) -> Result<Items<u32>, NoMemory>
    ensures { IfOk result (λ ks. ks ≡ picked args.now refs.now) }
{
    let mut all = Items::new(alloc);
    for r in refs {
        all.push(numbered(args, *r))?;
    }
    Ok(all)
}
