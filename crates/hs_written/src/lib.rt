//! Formulas written by numbers.
//!
//! `specs/` says which formulas can be written and which trees write them, wherever the nodes of the tree stand.
//! A tree that writes a writable formula is read as that formula.
#![tactic(auto)]

mod laws;

pub use laws::written_is_read;
