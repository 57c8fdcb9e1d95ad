//! The arithmetic approximation of atoms: what is true of numbers and bags wherever a heap satisfies them.
//!
//! `specs/` has the approximation at each level, and when invariants hold. `approximation` gives its conjuncts,
//! `xpure` joins them, and `body` gives the same of a predicate's body. They refuse what takes more than 2^30 new
//! numbers, before it is built. The functions of `laws` have no body: their contracts are the laws that the layers
//! above use.
#![tactic(auto)]

mod calls;
mod counts;
mod error;
mod form;
mod formed;
mod formulas;
mod laws;
mod shared;

pub use calls::{approximation, body, xpure};
pub use error::XError;
pub use laws::{
    approximation_is_ordered, approximation_is_plain, approximation_is_true, invariants_are_shown,
    new_numbers_are_in_range, premise_can_be_asked, premise_can_be_formed, premise_is_low,
    premise_takes_few,
};
