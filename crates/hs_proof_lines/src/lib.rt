//! What `prove` writes and `check` answers.
//!
//! [`proof_lines`] gives the text of a derivation of all claims of a source that are proved, with a line for each claim:
//! the number of the node that concludes it, or why it is open. Invariants are proved by their questions, entailments by
//! the first proof of the search and pairs by the verifier, entailments and pairs only where all invariants are shown.
//!
//! [`check_lines`] reads the text of a derivation and gives the line of the verdict on it against the claims of a source,
//! or the refusal of the first fault of the text.
#![tactic(auto)]

mod causes;
mod checking;
mod error;
mod moving;
mod numbers;
mod proving;
mod subjects;
mod written;

pub use checking::check_lines;
pub use error::CheckError;
pub use proving::proof_lines;
