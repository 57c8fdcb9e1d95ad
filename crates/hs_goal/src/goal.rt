ghost use Rattle.std.specs.Prelude.{◌≡◌, ◌↔◌, IfOk, IsTrue};
ghost use Rattle.hs_goal.specs.Goal.{start};

use crate::lists::{copy_atoms, same_atoms, same_vars};
use hs_heap::{Atom, Formula};
use hs_pure::{NoMemory, Var};
use sqlite_items::Items;
use std::alloc::Global;

/// Beside the used atoms the left side entails the right side, for some values of the open variables. New numbers
/// begin at `next`.
#[derive(Debug, Drop)]
pub struct Goal {
    pub used: Items<Atom>,
    pub left: Formula,
    pub opens: Items<Var>,
    pub right: Formula,
    pub next: u32,
    /// Whether the left side was looked at for a contradiction.
    pub looked: bool,
}

impl Goal {
    /// The goal of an entailment. It takes no memory.
    pub fn start(alloc: Global, left: Formula, opens: Items<Var>, right: Formula, next: u32) -> Goal
        ensures { result ≡ start left opens right next }
    {
        Goal {
            used: Items::new(alloc),
            left,
            opens,
            right,
            next,
            looked: false,
        }
    }

    /// An equal goal.
    pub fn copy(&self, alloc: Global) -> Result<Goal, NoMemory>
        ensures same { IfOk result (λ g. g ≡ self.now) }
    {
        Ok(Goal {
            used: copy_atoms(alloc, self.used.as_slice())?,
            left: self.left.copy(alloc)?,
            opens: Items::from_slice(alloc, self.opens.as_slice())?,
            right: self.right.copy(alloc)?,
            next: self.next,
            looked: self.looked,
        })
    }

    /// Whether both are one goal. It takes no memory.
    pub fn same(&self, other: &Goal) -> bool
        ensures exact { IsTrue result ↔ (self.now ≡ other.now) }
    {
        self.next == other.next
            && self.looked == other.looked
            && same_atoms(self.used.as_slice(), other.used.as_slice())
            && same_vars(self.opens.as_slice(), other.opens.as_slice())
            && self.left.same(&other.left)
            && self.right.same(&other.right)
    }
}
