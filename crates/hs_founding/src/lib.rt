//! The refusal of definitions that are not founded.
//!
//! [`founding_fault`] tells the first fault of definitions in normal form, by the names of the source, and that there
//! is none only where they are founded. The functions of `laws` state that such a fault excludes founded definitions,
//! and that definitions have one.
#![tactic(auto)]

mod fault;
mod laws;

pub use fault::founding_fault;
pub use laws::{faults_are_unique, founded_have_no_fault};
