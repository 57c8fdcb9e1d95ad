//! The search for derivations of entailments.
//!
//! [`prove`] answers `Valid` with the first derivations of the goal of at most the given rank, in their order: each is a
//! list of right steps whose last concludes the goal. Else it answers the cause: the tree has too many goals, or a
//! question that is spent, or its rank is too small, or what is to blame where no derivation has any rank. Where the
//! tree is within the limit of goals and has no spent question, the answer is valid exactly where there is a
//! derivation, which the contract of [`search_is_complete`] states.
#![tactic(auto)]

mod answer;
mod laws;
mod proving;
mod sleek;

pub use answer::SleekAnswer;
pub use laws::search_is_complete;
pub use proving::prove;
