//! The verifier: forward trees of pairs, and their derivations.
//!
//! [`verify`] goes from the start of a pair by the rule of each state to its further premises, and searches for the goal
//! that the rule asks. It answers `Accepted` with right nodes of which the last concludes the start. Else it names the
//! first state at which it stops: its goal has no derivation, or the limit of states is reached, or new numbers would
//! pass their bound. Where the states are within the limits and the searches for their goals are too, a pair is accepted
//! exactly where its tree is closed, and else a goal has no derivation, which the contract of
//! [`verification_is_complete`] states.
#![tactic(auto)]

mod answer;
mod asking;
mod choosing;
mod concluding;
mod finding;
mod laws;
mod task;
mod verifying;
mod visiting;

pub use answer::HipAnswer;
pub use laws::verification_is_complete;
pub use verifying::verify;
