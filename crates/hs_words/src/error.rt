//! Why tokens are no source.

ghost use Rattle.std.specs.Prelude.{◌≡◌};
ghost use Rattle.hs_words.specs.declared.error.ReadError.TheVariants.{Memory};

use std::alloc::AllocError;
use thiserror::Error;

/// What stands where a rule needs another token.
#[derive(Clone, Copy, Debug, PartialEq, Eq)]
pub enum What {
    Token,
    /// The end of the text.
    End,
}

#[derive(Debug, Drop, Error)]
pub enum ReadError {
    /// No rule goes on with the token here.
    #[error("byte {0}: expected another token")]
    Expected(u32, What),
    /// The token here opens a level of nesting too many.
    #[error("byte {0}: too deep")]
    TooDeep(u32),
    #[error("out of memory")]
    Memory,
}

impl From<AllocError> for ReadError {
    ghost from_gives = { λ _ e. e ≡ Memory };

    fn from(_: AllocError) -> ReadError {
        ReadError::Memory
    }
}
