//! Nodes with new variables for their fields.

ghost use Rattle.std.specs.Prelude.{◌≡◌, ◌+◌, ◌≤◌, ◌^◌, IfOk};
ghost use Rattle.hs_core.specs.Sound.{field_count, vars_from};
ghost use Rattle.hs_program_rules.specs.Parts.{count_or_none, node_atom};

use hs_heap::{Atom, Defs, Of};
use hs_pure::{NoMemory, Var};
use sqlite_items::Items;
use std::alloc::Global;

/// How many fields the data type of a number from 1 has; 0 where there is none.
pub fn fields(defs: &Defs, kind: u32) -> usize
    ensures { result ≡ count_or_none (field_count defs.now kind) }
{
    if kind == 0 {
        return 0;
    }
    match defs.nodes.as_slice().get(kind as usize - 1) {
        Some(node) => node.fields.len(),
        None => 0,
    }
}

/// So many number variables, from a number on.
pub fn new_vars(alloc: Global, from: u32, count: u32) -> Result<Items<Var>, NoMemory>
    requires { from + count ≤ 2 ^ 32 }
    ensures { IfOk result (λ vs. vs ≡ vars_from from count) }
{
    let mut vs = Items::new(alloc);
    for i in 0..count {
        vs.push(Var {
            number: from + i,
            bag: false,
        })?;
    }
    Ok(vs)
}

/// A node of a data type.
pub fn node_atom(alloc: Global, root: Var, kind: u32, args: &[Var]) -> Result<Atom, NoMemory>
    ensures { IfOk result (λ a. a ≡ node_atom root kind args.now) }
{
    Ok(Atom {
        root,
        of: Of::Node(kind),
        args: Items::from_slice(alloc, args)?,
    })
}
