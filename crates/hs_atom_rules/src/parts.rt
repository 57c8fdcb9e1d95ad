//! Lists and sides without an atom, or with others in its place.

ghost use Rattle.std.specs.Prelude.{◌≡◌, ◌++◌, IfOk, OnOk};
ghost use Rattle.hs_rules.specs.Parts.{IsPlace, in_place, plain, replaced};

use hs_heap::{Atom, Disjunct, Formula};
use hs_pure::{NoMemory, Pure};
use hs_sides::{copy_atoms, only};
use sqlite_items::Items;
use std::alloc::Global;

pub fn push_atoms(alloc: Global, all: &mut Items<Atom>, atoms: &[Atom]) -> Result<(), NoMemory>
    ensures { OnOk result (all.new ≡ all.old ++ atoms.now) }
{
    for atom in atoms {
        all.push(atom.copy(alloc)?)?;
    }
    Ok(())
}

pub fn push_conjuncts(
    alloc: Global,
    all: &mut Items<Pure>,
    conjuncts: &[Pure],
) -> Result<(), NoMemory>
    ensures { OnOk result (all.new ≡ all.old ++ conjuncts.now) }
{
    for conjunct in conjuncts {
        all.push(conjunct.copy(alloc)?)?;
    }
    Ok(())
}

/// Atoms with others in the place of one.
pub fn atoms_in_place(
    alloc: Global,
    n: u32,
    others: &[Atom],
    atoms: &[Atom],
) -> Result<Items<Atom>, NoMemory>
    requires { IsPlace n atoms.now }
    ensures { IfOk result (λ all. all ≡ in_place n others.now atoms.now) }
{
    let mut all = copy_atoms(alloc, &atoms[..n as usize - 1])?;
    push_atoms(alloc, &mut all, others)?;
    push_atoms(alloc, &mut all, &atoms[n as usize..])?;
    Ok(all)
}

/// A case in the place of an atom of a simple side: its atoms stand there, its conjuncts come last.
pub fn replaced(
    alloc: Global,
    n: u32,
    side: &Disjunct,
    case: &Disjunct,
) -> Result<Disjunct, NoMemory>
    requires { IsPlace n side.now.atoms }
    ensures { IfOk result (λ d. d ≡ replaced n side.now case.now) }
{
    let mut pure = Items::new(alloc);
    push_conjuncts(alloc, &mut pure, side.pure.as_slice())?;
    push_conjuncts(alloc, &mut pure, case.pure.as_slice())?;
    Ok(Disjunct {
        bound: Items::from_slice(alloc, case.bound.as_slice())?,
        atoms: atoms_in_place(alloc, n, case.atoms.as_slice(), side.atoms.as_slice())?,
        pure,
    })
}

/// A simple side.
pub fn plain(alloc: Global, atoms: Items<Atom>, pure: Items<Pure>) -> Result<Formula, NoMemory>
    ensures { IfOk result (λ f. f ≡ plain atoms pure) }
{
    let bound = Items::new(alloc);
    only(alloc, Disjunct { bound, atoms, pure })
}
