//! Why a text has no tokens.

ghost use Rattle.std.specs.Prelude.{◌≡◌};
ghost use Rattle.hs_lex.specs.declared.error.LexError.TheVariants.{Memory};

use std::alloc::AllocFailed;
use thiserror::Error;

/// The first fault of a text, by the offset of its first byte.
#[derive(Clone, Copy, Debug, PartialEq, Eq, Error)]
pub enum LexError {
    /// The bytes are UTF-8 up to here, and no further.
    #[error("byte {0}: not UTF-8")]
    NotUtf8(u32),
    /// Neither a token nor a comment begins here, and it is no blank.
    #[error("byte {0}: bad byte")]
    BadByte(u32),
    /// A number is above the limit.
    #[error("byte {0}: literal too large")]
    LiteralWide(u32),
    /// A name has more than 64 bytes.
    #[error("byte {0}: name too long")]
    NameLong(u32),
    /// Memory ran out, which may happen in any call.
    #[error("out of memory")]
    Memory,
}

impl<T: Drop> From<AllocFailed<T>> for LexError {
    ghost from_gives = { λ _ e. e ≡ Memory };

    fn from(_: AllocFailed<T>) -> LexError {
        LexError::Memory
    }
}
