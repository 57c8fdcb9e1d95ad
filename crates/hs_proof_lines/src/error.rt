//! Why there is no line.

ghost use Rattle.std.specs.Prelude.{◌≡◌};
ghost use Rattle.hs_proof_lines.specs.declared.error.CheckError.TheVariants.{Memory};

use hs_print::Refusal;
use hs_pure::NoMemory;
use std::alloc::AllocError;
use thiserror::Error;

/// Why the text of a derivation has no verdict.
#[derive(Debug, Drop, Error)]
pub enum CheckError {
    /// The text is no derivation.
    #[error("refused")]
    Refused(Refusal),
    /// There was no memory.
    #[error("out of memory")]
    Memory,
}

impl From<NoMemory> for CheckError {
    ghost from_gives = { λ _ e. e ≡ Memory };

    fn from(_: NoMemory) -> CheckError {
        CheckError::Memory
    }
}

impl From<AllocError> for CheckError {
    ghost from_gives = { λ _ e. e ≡ Memory };

    fn from(_: AllocError) -> CheckError {
        CheckError::Memory
    }
}
