//! Implications of formulas on numbers and bags.
//!
//! `implies` answers `Yes` only where the implication is true at all stacks, and `No` only with values that make
//! its left side true and its right side false. It stops for a question that is spent: one whose plain decision,
//! as `specs/` has it, takes more atoms than are allowed, or a number past 128 bits. Unit questions are answered whatever
//! the atoms are, and equations are solved before anything is eliminated. A question with bags is reduced to one on their
//! counts, at first with its equations of bags put in place, and then as it is.
#![tactic(auto)]

mod answer;
mod confirm;
mod conjuncts;
mod counting;
mod decide;
mod facts;
mod formula;
mod placing;
mod plainly;
mod rows;
mod shared;

pub use answer::Answer;
pub use decide::{implies, unsat};
