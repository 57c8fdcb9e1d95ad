//! The reader of the text of derivations.
//!
//! [`read_derivation`] answers exactly what the definitions of `hs_dtext` say that the bytes are read as, the derivation or
//! the first fault, or want of memory.
#![tactic(auto)]

mod formulas;
mod lines;
mod nodes;
mod parts;
mod pures;
mod rules;

pub use lines::read_derivation;
