//! Equations of bags, put in place before a formula is reduced to one on numbers.
//!
//! `placed` gives a formula that follows from a formula: where a bag variable is equated with a bag at its top, the bag
//! stands for the variable. `completed` gives values of the replaced variables from values of the others.
#![tactic(auto)]

mod complete;
mod equations;
mod place;
mod put;
mod stop;

pub use complete::completed;
pub use place::{InPlace, placed};
