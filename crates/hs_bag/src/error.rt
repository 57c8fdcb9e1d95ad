ghost use Rattle.std.specs.Prelude.{◌≡◌};
ghost use Rattle.hs_bag.specs.declared.error.BagError.TheVariants.{Memory};

use hs_pure::NoMemory;
use std::alloc::{AllocError, AllocFailed};

/// Why a formula was not reduced.
#[derive(Clone, Copy, Debug, PartialEq, Eq)]
pub enum BagError {
    /// A bag literal stands under a quantifier or an `AllOf`.
    UnderQuantifier,
    /// The plain reduction takes more than 2^30 new numbers.
    Numbers,
    /// There was no memory.
    Memory,
}

impl From<AllocError> for BagError {
    ghost from_gives = { λ _ e. e ≡ Memory };

    fn from(_: AllocError) -> BagError {
        BagError::Memory
    }
}

impl<T: Drop> From<AllocFailed<T>> for BagError {
    ghost from_gives = { λ _ e. e ≡ Memory };

    fn from(_: AllocFailed<T>) -> BagError {
        BagError::Memory
    }
}

impl From<NoMemory> for BagError {
    ghost from_gives = { λ _ e. e ≡ Memory };

    fn from(_: NoMemory) -> BagError {
        BagError::Memory
    }
}
