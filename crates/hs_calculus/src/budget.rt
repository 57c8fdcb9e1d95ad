//! What a search uses up.
ghost use Rattle.std.specs.Prelude.{◌≡◌, ◌+◌, false, OnOk, IfErr, IsTrue, MatchOption};

use hs_text::NoMemory;
use smallvec::SmallVec;
use std::alloc::Global;

/// So many choices stand at most on a path, but for forced steps.
const MAX_NESTED: usize = 1000;

/// What is left to a search, and whether a place was met at which the rank was too small.
#[derive(Debug, Drop)]
pub struct Budget {
    pub left: u64,
    pub is_cut: bool,
}

/// The budget of a search, and the numbers of the choices on the present path.
#[derive(Drop)]
pub struct State {
    pub budget: Budget,
    path: SmallVec<u32, 32>,
}

impl State {
    /// The state of a search that may look at so many places.
    pub fn new(alloc: Global, goals: u64) -> State
        ensures left { result.budget.left ≡ goals }
        ensures cut { result.budget.is_cut ≡ false }
    {
        State {
            budget: Budget {
                left: goals,
                is_cut: false,
            },
            path: SmallVec::new(alloc),
        }
    }

    /// Goes on to the choice of this number. `NoMemory` comes also where the path is too long.
    pub fn enter(&mut self, number: u32) -> Result<(), NoMemory>
        ensures { self.new.budget ≡ self.old.budget }
    {
        if self.path.len() >= MAX_NESTED {
            return Err(NoMemory);
        }
        self.path.push(number)?;
        Ok(())
    }

    /// Goes back from the last choice.
    pub fn leave(&mut self)
        ensures { self.new.budget ≡ self.old.budget }
    {
        self.path.pop();
    }
}
