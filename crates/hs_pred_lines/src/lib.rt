//! The lines of predicates in a report.
//!
//! [`predicate_lines`] gives a line for each predicate, in order, and what each says is true: `shown` only where
//! the invariant follows from the body, `fails` only with printed values that make the body's approximation true
//! and the invariant false, and a stop only where that question is spent. Where all are shown, every heap that
//! satisfies a predicate makes its invariant true.
#![tactic(auto)]

mod laws;
mod lines;
mod values;

pub use laws::shown_invariants_hold;
pub use lines::predicate_lines;
pub use values::{asked_below, values_text};
