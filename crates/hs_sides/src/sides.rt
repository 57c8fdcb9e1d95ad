//! Goals with another side.
ghost use Rattle.std.specs.Prelude.{◌≡◌, true, false, IfOk};
ghost use Rattle.hs_rules.specs.Parts.{only};

use hs_goal::Goal;
use hs_heap::{Atom, Disjunct, Formula};
use hs_pure::{NoMemory, Pure, Var};
use sqlite_items::Items;
use std::alloc::Global;

/// A formula of one disjunct.
pub fn only(alloc: Global, d: Disjunct) -> Result<Formula, NoMemory>
    ensures { IfOk result (λ f. f ≡ only d) }
{
    let mut cases = Items::new(alloc);
    cases.push(d)?;
    Ok(Formula { cases })
}

pub fn copy_atoms(alloc: Global, atoms: &[Atom]) -> Result<Items<Atom>, NoMemory>
    ensures { IfOk result (λ all. all ≡ atoms.now) }
{
    let mut all = Items::new(alloc);
    for atom in atoms {
        all.push(atom.copy(alloc)?)?;
    }
    Ok(all)
}

/// The goal with another left side, which was not looked at.
pub fn with_left(alloc: Global, goal: &Goal, left: Formula, next: u32) -> Result<Goal, NoMemory>
    ensures { IfOk result (λ sub. sub ≡ record goal.now { left = left; next = next; looked = false }) }
{
    Ok(Goal {
        used: copy_atoms(alloc, goal.used.as_slice())?,
        left,
        opens: Items::from_slice(alloc, goal.opens.as_slice())?,
        right: goal.right.copy(alloc)?,
        next,
        looked: false,
    })
}

/// The goal with another right side and other open variables.
pub fn with_right(
    alloc: Global,
    goal: &Goal,
    opens: Items<Var>,
    right: Formula,
    next: u32,
) -> Result<Goal, NoMemory>
    ensures { IfOk result (λ sub. sub ≡ record goal.now { opens = opens; right = right; next = next; looked = true }) }
{
    Ok(Goal {
        used: copy_atoms(alloc, goal.used.as_slice())?,
        left: goal.left.copy(alloc)?,
        opens,
        right,
        next,
        looked: true,
    })
}
