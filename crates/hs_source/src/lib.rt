//! From the bytes of a source to its normal form, or to its refusal.
//!
//! [`resolve`] answers the tree that the tokens of the text spell and its normal form, or else the first fault:
//! of the lexer, then of the reader, then of the normal form. A text has exactly one answer, which the contract
//! of [`texts_have_one_answer`] states. Only want of memory may stand in its place.
#![tactic(auto)]

mod error;
mod laws;
mod texts;

/// The greatest number that a source may write.
pub const LITERAL_LIMIT: u128 = (1 << 63) - 1;

pub use error::SourceError;
pub use laws::texts_have_one_answer;
pub use texts::resolve;
