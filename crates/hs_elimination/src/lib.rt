//! Cooper's elimination of a variable from formulas of linear integer arithmetic, over unbounded integers.
//!
//! `specs/` has the three stages as total functions, the atoms and numbers of each, the plain value of a variable,
//! and a test of truth that eliminates the quantifiers. The laws say that an elimination keeps truth and the order
//! of sums, that its variable is gone, and that the truth of a formula without bag literals is decided.
#![tactic(auto)]

mod laws;

pub use laws::{
    bags_are_of_assertion, elimination_adds_none, elimination_is_simple, elimination_keeps_order,
    elimination_keeps_truth, elimination_lacks, order_is_of_assertion, truth_is_decided,
    truth_is_tested,
};
