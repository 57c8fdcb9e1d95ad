ghost use Rattle.std.specs.Prelude.{◌≡◌, IfOk};

use hs_pure::{NoMemory, Valuation};
use std::alloc::Global;

/// What a question is answered.
#[derive(Debug, Drop)]
pub enum Answer {
    /// The implication is true at all stacks.
    Yes,
    /// Values that make the left side true and the right side false. A variable that is not named is 0.
    No(Valuation),
    /// A stage of the plain decision has more atoms than were allowed.
    Atoms,
    /// A number of the plain decision passes 128 bits.
    Wide,
}

impl Answer {
    /// An equal answer.
    pub fn copy(&self, alloc: Global) -> Result<Answer, NoMemory>
        ensures { IfOk result (λ r. r ≡ self.now) }
    {
        match self {
            Answer::Yes => Ok(Answer::Yes),
            Answer::No(v) => Ok(Answer::No(v.copy(alloc)?)),
            Answer::Atoms => Ok(Answer::Atoms),
            Answer::Wide => Ok(Answer::Wide),
        }
    }
}
