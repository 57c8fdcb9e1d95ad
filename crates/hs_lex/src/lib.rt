//! The tokens of a source text.
//!
//! A text is UTF-8, and only ASCII begins a token. Blanks and comments, which run from `//` to the
//! end of their line, stand between tokens. [`lex`] promises:
//!
//! - The tokens that it answers are the tokens of the text, each the longest that begins at its
//!   place, and nothing but blanks and comments stands between them.
//! - An error is the first fault of the text: where it stops being UTF-8, or else the first place
//!   at which no token begins, a number is above the limit or a name is too long.
//! - Each token begins and ends with an ASCII byte, so it can be cut from the text.
//!
//! A text has exactly one answer by these rules, which the contracts of [`tokens_are_unique`] and
//! its neighbours state. Only want of memory may stand in its place.
#![tactic(auto)]

mod error;
mod laws;
mod lexer;
mod piece;
mod shared;
mod sign;
mod token;

pub use error::LexError;
pub use laws::{faults_are_unique, texts_have_answers, tokens_are_unique, tokens_exclude_faults};
pub use lexer::lex;
pub use token::{Sign, Token, TokenKind};
