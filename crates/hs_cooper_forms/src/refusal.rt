ghost use Rattle.std.specs.Prelude.{◌≡◌};
ghost use Rattle.hs_cooper_forms.specs.declared.refusal.Refusal.TheVariants.{Memory};

use hs_pure::NoMemory;
use std::alloc::{AllocError, AllocFailed};

/// Why a formula was not built.
#[derive(Clone, Copy, Debug, PartialEq, Eq)]
pub enum Refusal {
    /// A number of it passes 128 bits.
    Wide,
    /// There was no memory.
    Memory,
}

impl From<AllocError> for Refusal {
    ghost from_gives = { λ _ e. e ≡ Memory };

    fn from(_: AllocError) -> Refusal {
        Refusal::Memory
    }
}

impl<T: Drop> From<AllocFailed<T>> for Refusal {
    ghost from_gives = { λ _ e. e ≡ Memory };

    fn from(_: AllocFailed<T>) -> Refusal {
        Refusal::Memory
    }
}

impl From<NoMemory> for Refusal {
    ghost from_gives = { λ _ e. e ≡ Memory };

    fn from(_: NoMemory) -> Refusal {
        Refusal::Memory
    }
}
