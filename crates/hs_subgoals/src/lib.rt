//! The subgoals of each entailment rule.
//!
//! One call gives the subgoals of a rule at a goal exactly where the rule applies, as the table of rules states it, and
//! `NotApplicable` exactly where it does not. A rule's question is not asked. `is_mixed` tells where an open variable
//! stands beside a bag literal, and `are_apart` that it does so nowhere.
#![tactic(auto)]

mod bags;
mod leaves;
mod rules;

pub use bags::{are_apart, is_mixed};
pub use rules::subgoals;
