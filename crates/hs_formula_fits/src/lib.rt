//! The normal form of a formula is well formed.
//!
//! The crate has laws alone: each is the contract of a function without a body. Where a settled numbering reads a
//! formula, a disjunct, an invariant or a number without a fault, the result is as the layers above ask of
//! definitions and entailments, the numbering after it is settled, and what the result binds is new.
#![tactic(auto)]

mod laws;

pub use laws::{conjunctions_fit, disjuncts_fit, formulas_fit, numbers_fit};
