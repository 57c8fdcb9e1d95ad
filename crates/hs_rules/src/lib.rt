//! The table of entailment rules: laws alone, no calls.
//!
//! `specs/` has the table, a column each: where a rule applies, its subgoals, its residue and its question. A right
//! step keeps what goals mean, over heaps of each size, and keeps numbers apart. The subgoals of a well-formed goal are
//! well formed, and those of an anchored goal anchored. The functions do nothing: their contracts are the laws that the
//! layers above use.
#![tactic(auto)]

mod laws;

pub use laws::{
    right_steps_hold, right_steps_keep_meaning, right_steps_stay_fresh, subgoals_are_anchored,
    subgoals_are_well_formed, subgoals_grow,
};
