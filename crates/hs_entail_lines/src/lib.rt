//! The lines of entailments in a report.
//!
//! [`entailment_lines`] gives a line for each entailment, in order, and what each says is true: `valid` has the
//! residues of the proofs that the search has, and the entailment holds with each of them; `unknown` has the cause for
//! which the search has no proof. Where the invariant of a predicate is not shown, that is the cause of all.
#![tactic(auto)]

mod laws;
mod lines;

pub use laws::entailments_are_goals;
pub use lines::entailment_lines;
