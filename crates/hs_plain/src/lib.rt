//! Plain decision: whether a formula has a solution, by elimination alone.
//!
//! `solution` eliminates the quantifiers and then the free variables by rising number, evaluates what is left, and finds
//! the plain values in the reverse order. It stops where a stage has more atoms than are allowed, or where a number
//! passes 128 bits: the size and the span of a formula, functions of it that stand in `specs/`.
#![tactic(auto)]

mod laws;
mod plain;
mod solve;
mod variables;

pub use laws::{free_variables_are_free, free_variables_rise};
pub use plain::solution;
