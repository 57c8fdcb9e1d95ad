//! The whole job of the program, from the words of its command line to the status that it ends with.
//!
//! [`run_tool`] writes one report, which the words and the files determine, and answers its status. A printed
//! `valid` means that every stack and heap that satisfies the antecedent splits into a part that satisfies
//! the consequent and a rest that satisfies the printed residue. A method of a program whose pairs are all `accepted` runs
//! safely. `check` accepts exactly the derivations that prove every claim. A printed core program is the translation of
//! the source, and the line of a run tells how the machine of that program ends. A refusal is that of the first fault: the
//! words, the files, the lexer, the reader, the normal form, the definitions where they are not founded, the translation,
//! what is not served yet, then the text of the derivation, or the heap text and the method.
#![tactic(auto)]

mod fetching;
mod hip;
mod laws;
mod output;
mod programs;
mod proofs;
mod reply;
mod served;
mod sleek;
mod sources;
mod statuses;
mod tool;

/// The most bytes that a source or a heap text may have.
pub const SOURCE_LIMIT: u64 = 1 << 20;

/// The most bytes that the text of a derivation may have.
pub const PROOF_LIMIT: u64 = 1 << 26;

pub use hs_cli::{Job, Options, WordsError};
pub use hs_print::{Line, Refusal, Tried, Why, Word};
pub use laws::statuses_have_causes;
pub use reply::Reply;
pub use statuses::status;
pub use tool::run_tool;
