//! Goals of entailments: what they mean, when they are well formed, and the rules by name.
#![tactic(auto)]

mod closed;
mod goal;
mod joining;
mod laws;
mod links;
mod lists;
mod rule;
mod shape;
mod shared;
mod table;

pub use goal::Goal;
pub use joining::classes;
pub use laws::{fitting_formulas_are_sides, sides_are_of_next, start_is_well_formed};
pub use rule::{Cause, ERule, Limits, Obligation, Question};
pub use shape::{case_fits, side_fits};
pub use table::Classes;
