//! What reports with status 0 promise.
//!
//! Each function does nothing: its contract states a law of the reports that the program writes. A report of `hip` with
//! status 0 is of a program each of whose pairs is safe to start for every number of steps
//! ([`accepted_programs_are_safe`]). A report of `check` with status 0 is of a text that proves every claim of the source:
//! its entailments hold, and its pairs are safe ([`accepted_texts_prove`]). A report of `prove` is the text of right nodes
//! and of lines that name what they conclude, and with status 0 it lists every claim ([`written_proofs_are_right`]).
#![tactic(auto)]

mod laws;

pub use laws::{accepted_programs_are_safe, accepted_texts_prove, written_proofs_are_right};
