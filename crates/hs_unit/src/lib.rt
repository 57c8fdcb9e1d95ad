//! Unit questions: implications between equations, each with a variable whose coefficient is 1 or -1, and comparisons.
//!
//! `unit` answers such a question by solving one equation after another, whatever the number of atoms. It tells
//! exactly which questions are unit questions. It says `Yes` only where the implication is true at all stacks, and
//! `No` only with values that make its left side true and its right side false.
#![tactic(auto)]

mod question;
mod reduction;
mod settled;
mod sides;
mod small;
mod solution;
mod values;

pub use question::unit;
pub use settled::Settled;
