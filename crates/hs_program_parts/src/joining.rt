//! Formulas with an atom put first, and formulas joined.

ghost use Rattle.std.specs.Prelude.{◌≡◌, ◌++◌, map, IfOk, OnOk};
ghost use Rattle.std.specs.List.{flat_map};
ghost use Rattle.hs_program_rules.specs.Parts.{with_atom, beside, joined_case, all_joined};

use hs_heap::{Atom, Disjunct, Formula};
use hs_pure::{NoMemory, Pure, Var};
use sqlite_items::Items;
use std::alloc::Global;

fn push_atoms(alloc: Global, all: &mut Items<Atom>, atoms: &[Atom]) -> Result<(), NoMemory>
    ensures { OnOk result (all.new ≡ all.old ++ atoms.now) }
{
    for atom in atoms {
        all.push(atom.copy(alloc)?)?;
    }
    Ok(())
}

fn push_conjuncts(alloc: Global, all: &mut Items<Pure>, ps: &[Pure]) -> Result<(), NoMemory>
    ensures { OnOk result (all.new ≡ all.old ++ ps.now) }
{
    for p in ps {
        all.push(p.copy(alloc)?)?;
    }
    Ok(())
}

fn push_vars(all: &mut Items<Var>, vs: &[Var]) -> Result<(), NoMemory>
    ensures { OnOk result (all.new ≡ all.old ++ vs.now) }
{
    for v in vs {
        all.push(*v)?;
    }
    Ok(())
}

fn with_atom(alloc: Global, atom: &Atom, d: &Disjunct) -> Result<Disjunct, NoMemory>
    ensures { IfOk result (λ e. e ≡ with_atom atom.now d.now) }
{
    let mut atoms = Items::new(alloc);
    atoms.push(atom.copy(alloc)?)?;
    push_atoms(alloc, &mut atoms, d.atoms.as_slice())?;
    let mut pure = Items::new(alloc);
    push_conjuncts(alloc, &mut pure, d.pure.as_slice())?;
    Ok(Disjunct {
        bound: Items::from_slice(alloc, d.bound.as_slice())?,
        atoms,
        pure,
    })
}

/// Each disjunct with the atom put first.
pub fn beside(alloc: Global, atom: &Atom, f: &Formula) -> Result<Formula, NoMemory>
    ensures { IfOk result (λ g. g ≡ beside atom.now f.now) }
{
    let mut cases = Items::new(alloc);
    for d in f.cases.as_slice() {
        cases.push(with_atom(alloc, atom, d)?)?;
    }
    Ok(Formula { cases })
}

fn joined_case(alloc: Global, d: &Disjunct, e: &Disjunct) -> Result<Disjunct, NoMemory>
    ensures { IfOk result (λ j. j ≡ joined_case d.now e.now) }
{
    let mut bound = Items::from_slice(alloc, d.bound.as_slice())?;
    push_vars(&mut bound, e.bound.as_slice())?;
    let mut atoms = Items::new(alloc);
    push_atoms(alloc, &mut atoms, d.atoms.as_slice())?;
    push_atoms(alloc, &mut atoms, e.atoms.as_slice())?;
    let mut pure = Items::new(alloc);
    push_conjuncts(alloc, &mut pure, d.pure.as_slice())?;
    push_conjuncts(alloc, &mut pure, e.pure.as_slice())?;
    Ok(Disjunct { bound, atoms, pure })
}

fn push_joined(
    alloc: Global,
    all: &mut Items<Disjunct>,
    d: &Disjunct,
    cases: &[Disjunct],
) -> Result<(), NoMemory>
    ensures { OnOk result (all.new ≡ all.old ++ map (joined_case d.now) cases.now) }
{
    for e in cases {
        all.push(joined_case(alloc, d, e)?)?;
    }
    Ok(())
}

/// Each disjunct of the first beside each of the second.
pub fn all_joined(alloc: Global, f: &Formula, g: &Formula) -> Result<Formula, NoMemory>
    ensures { IfOk result (λ j. j ≡ all_joined f.now g.now) }
{
    let mut cases = Items::new(alloc);
    for d in f.cases.as_slice() {
        push_joined(alloc, &mut cases, d, g.cases.as_slice())?;
    }
    Ok(Formula { cases })
}
