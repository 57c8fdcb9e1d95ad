//! What the calls on entailment rules share: places in lists, simple sides, goals with another side, and what is answered
//! where a rule does not apply.
#![tactic(auto)]

mod error;
mod places;
mod sides;

pub use error::RuleError;
pub use places::{atom_at, binding_case, case_at, conjunct_at, simple_case};
pub use sides::{copy_atoms, only, with_left, with_right};
