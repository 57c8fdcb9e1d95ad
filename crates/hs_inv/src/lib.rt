//! Invariants of predicates: whether each follows from the body.
//!
//! [`invariant`] answers `Shown` only where the approximation of the body at level 0 implies the invariant at all
//! stacks, and `Fails` only with values that make the approximation true and the invariant false. It stops where
//! that question is spent, and only there. Where each invariant of sound definitions is shown, every heap that
//! satisfies a predicate makes its invariant true: that is the law `invariants_are_shown` of `hs_xpure`.
#![tactic(auto)]

mod answer;
mod questions;
mod shared;

pub use answer::InvAnswer;
pub use questions::{invariant, premise};
