ghost use Rattle.std.specs.Prelude.{◌≡◌};
ghost use Rattle.hs_choices.specs.declared.error.AskError.TheVariants.{Memory};

use hs_goal::Question;
use hs_pure::NoMemory;

/// What is used up at a goal.
#[derive(Debug, Drop)]
pub enum Spent {
    /// New numbers: those of the subgoals of a rule pass 2^30, or the approximation in a question takes more than
    /// 2^30.
    Numbers,
    /// A stage of the plain decision of the question has more atoms than are allowed.
    Atoms(Question),
    /// A number of the plain decision of the question passes 128 bits.
    Wide(Question),
}

/// Why a question has no answer.
#[derive(Debug, Drop)]
pub enum AskError {
    Spent(Spent),
    /// There was no memory.
    Memory,
}

impl From<NoMemory> for AskError {
    ghost from_gives = { λ _ e. e ≡ Memory };

    fn from(_: NoMemory) -> AskError {
        AskError::Memory
    }
}
