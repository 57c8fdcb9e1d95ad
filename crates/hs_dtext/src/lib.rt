//! The text of derivations, and what texts are read as.
//!
//! `specs/Text` has the text of a derivation: a line for each node and each claim. [`write`] answers exactly that,
//! and [`write_proved`] the same where some claims are open, of which a line says why.
//! `specs/Lines` says what a text is read as, or its first fault, over the parts of a line in `specs/Parts` and formulas
//! in `specs/Formulas`. The reader is in a crate of its own, over the types here.
#![tactic(auto)]

mod claims;
mod fault;
mod reading;
mod shared;
mod text;
mod words;
mod writer;

pub use claims::ClaimLine;
pub use fault::DTextError;
pub use reading::{Body, LineError, Reading, Stage};
pub use text::{write, write_proved};
pub use words::RuleWord;
