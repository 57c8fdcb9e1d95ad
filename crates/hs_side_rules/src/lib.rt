//! The rules of entailment at a whole side: its disjuncts, what it binds, and its conjuncts.
//!
//! Each call gives its subgoals exactly where the rule applies, as the table of rules states it, and `NotApplicable`
//! exactly where it does not.
#![tactic(auto)]

mod cases;
mod equations;
mod instantiating;
mod laws;
mod occurring;
mod opening;
mod sides;
mod splitting;

pub use cases::{left_or, right_or};
pub use equations::is_equation;
pub use instantiating::instantiate;
pub use laws::{equations_are_told, fitting_cases_can_be_opened};
pub use opening::{left_exists, right_exists};
pub use splitting::split;
