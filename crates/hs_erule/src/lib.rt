//! Whether a goal with a residue follows from premises by an entailment rule.
//!
//! `right` answers `Right` only of a right step, as the table of rules states it, and `Wrong` only with the first of
//! its tests that fails. It stops only where the rule's question takes too many new numbers or is spent.
#![tactic(auto)]

mod asking;
mod judge;
mod shared;
mod step;

pub use hs_check::{NodeAnswer, Reason};
pub use hs_question::{question, residue};
pub use hs_sides::RuleError;
pub use hs_subgoals::subgoals;
pub use judge::right;
pub use step::{Proof, Step};
