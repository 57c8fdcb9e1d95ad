//! The lines of pairs in a report.
//!
//! [`pair_lines`] gives a line for each pair, by method and pair, and what each says is true: `accepted` where right
//! nodes conclude the start of the pair; else the instruction at which the verifier stops, with the causes of what was
//! tried there. Where the invariant of a predicate is not shown, that is the cause of all.
//!
//! Where all invariants hold and every pair is accepted, the start of each pair is safe for every number of steps, which
//! the contract of [`accepted_pairs_are_safe`] states.
#![tactic(auto)]

mod causes;
mod laws;
mod lines;
mod numbers;

pub use laws::accepted_pairs_are_safe;
pub use lines::pair_lines;
