//! The tokens of a text as the words of a language, and the steps that its parsers are made of.
//!
//! A [`Cursor`] stands between two tokens of a text. Each of its calls does what the step of its name in
//! `specs/` does: it looks at the next word or two, takes a token that must come next, or says why reading
//! stops here. A parser is a function from where it begins to what it read and where it ended, or to the
//! first place at which reading stops.
#![tactic(auto)]

mod cursor;
mod error;
mod word;

pub use cursor::Cursor;
pub use error::{ReadError, What};
pub use word::{Keyword, Word};
