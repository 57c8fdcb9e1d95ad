ghost use Rattle.std.specs.Prelude.{◌≡◌, IfOk};

use hs_core::At;
use hs_goal::Goal;
use hs_pure::NoMemory;
use std::alloc::Global;

/// What a source claims. Predicates are numbered from 1.
#[derive(Drop)]
pub enum Claim {
    /// The invariant of a predicate holds.
    Invariant(u32),
    /// The first goal of an entailment holds with some residue.
    Entails(Goal),
    /// Runs from the first state of a pair are safe.
    Pair(At),
}

impl Claim {
    /// An equal claim.
    pub fn copy(&self, alloc: Global) -> Result<Claim, NoMemory>
        ensures same { IfOk result (λ c. c ≡ self.now) }
    {
        match self {
            Claim::Invariant(pred) => Ok(Claim::Invariant(*pred)),
            Claim::Entails(goal) => Ok(Claim::Entails(goal.copy(alloc)?)),
            Claim::Pair(at) => Ok(Claim::Pair(at.copy(alloc)?)),
        }
    }
}
