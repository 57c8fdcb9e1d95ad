//! Why there are no lines.

ghost use Rattle.std.specs.Prelude.{◌≡◌};
ghost use Rattle.hs_core_lines.specs.Core as spec;
ghost use Rattle.hs_core_lines.specs.declared.error.CoreError.TheVariants.{Memory};

use hs_lower::LowerError;
use hs_print::Refusal;
use hs_pure::NoMemory;
use std::alloc::AllocError;
use thiserror::Error;

/// Why a source has no lines.
#[derive(Debug, Drop, Error)]
pub enum CoreError {
    /// The source, the heap text or the method is refused.
    #[error("refused")]
    Refused(Refusal),
    /// There was no memory.
    #[error("out of memory")]
    Memory,
}

impl From<NoMemory> for CoreError {
    ghost from_gives = { λ _ e. e ≡ Memory };

    fn from(_: NoMemory) -> CoreError {
        CoreError::Memory
    }
}

impl From<AllocError> for CoreError {
    ghost from_gives = { λ _ e. e ≡ Memory };

    fn from(_: AllocError) -> CoreError {
        CoreError::Memory
    }
}

/// What an error of lowering is to the whole.
pub fn of_lowering(error: LowerError) -> CoreError
    ensures { result ≡ spec.of_lowering error }
{
    match error {
        LowerError::BadType(at) => CoreError::Refused(Refusal::BadType(at)),
        LowerError::Unset(at) => CoreError::Refused(Refusal::Unset(at)),
        LowerError::NoReturn(at) => CoreError::Refused(Refusal::NoReturn(at)),
        LowerError::TooLong(at) => CoreError::Refused(Refusal::TooLong(at)),
        LowerError::RefTwice(at) => CoreError::Refused(Refusal::RefTwice(at)),
        LowerError::ReturnInLoop(at) => CoreError::Refused(Refusal::ReturnInLoop(at)),
        LowerError::Memory => CoreError::Memory,
    }
}
