ghost use Rattle.std.specs.Prelude.{◌≡◌};
ghost use Rattle.hs_cooper.specs.Stopping.{stop_of};
ghost use Rattle.hs_cooper.specs.declared.stop.Stop.TheVariants as stop;

use hs_cooper_forms::Refusal;
use std::alloc::AllocError;

/// Why an elimination stopped.
#[derive(Clone, Copy, Debug, PartialEq, Eq)]
pub enum Stop {
    /// A stage has more atoms than the budget.
    Atoms,
    /// A number of a stage passes 128 bits.
    Wide,
    /// There was no memory.
    Memory,
}

impl From<Refusal> for Stop {
    ghost from_gives = { λ r e. e ≡ stop_of r };

    fn from(r: Refusal) -> Stop {
        match r {
            Refusal::Wide => Stop::Wide,
            Refusal::Memory => Stop::Memory,
        }
    }
}

impl From<AllocError> for Stop {
    ghost from_gives = { λ _ e. e ≡ stop.Memory };

    fn from(_: AllocError) -> Stop {
        Stop::Memory
    }
}
