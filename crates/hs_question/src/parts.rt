//! The parts of a side, where it is one disjunct.

ghost use Rattle.std.specs.Prelude.{◌≡◌, ◌++◌, OnOk};
ghost use Rattle.hs_goal.specs.Classes.{the_case};

use hs_heap::{Atom, Formula};
use hs_pure::{NoMemory, Pure, Var};
use sqlite_items::Items;
use std::alloc::Global;

pub fn bound_of(side: &Formula) -> &[Var]
    ensures { result.now ≡ (the_case side.now).bound }
{
    match side.cases.as_slice() {
        [case, ..] => case.bound.as_slice(),
        [] => &[],
    }
}

pub fn atoms_of(side: &Formula) -> &[Atom]
    ensures { result.now ≡ (the_case side.now).atoms }
{
    match side.cases.as_slice() {
        [case, ..] => case.atoms.as_slice(),
        [] => &[],
    }
}

pub fn pure_of(side: &Formula) -> &[Pure]
    ensures { result.now ≡ (the_case side.now).pure }
{
    match side.cases.as_slice() {
        [case, ..] => case.pure.as_slice(),
        [] => &[],
    }
}

/// Adds copies.
pub fn push_atoms(alloc: Global, all: &mut Items<Atom>, atoms: &[Atom]) -> Result<(), NoMemory>
    ensures { OnOk result (all.new ≡ all.old ++ atoms.now) }
{
    for atom in atoms {
        all.push(atom.copy(alloc)?)?;
    }
    Ok(())
}

/// Adds copies.
pub fn push_conjuncts(
    alloc: Global,
    all: &mut Items<Pure>,
    conjuncts: &[Pure],
) -> Result<(), NoMemory>
    ensures { OnOk result (all.new ≡ all.old ++ conjuncts.now) }
{
    for conjunct in conjuncts {
        all.push(conjunct.copy(alloc)?)?;
    }
    Ok(())
}
