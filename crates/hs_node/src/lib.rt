//! Derivations: lists of nodes, each a judgement that a rule gives from those of earlier nodes, and the claims that
//! they are to show.
//!
//! A copy of a value is an equal value. `same`, and `same_at` of states at points, tell equality without memory. All
//! types may go to other threads and be read by several.
#![tactic(auto)]

mod claim;
mod derivation;
mod judgement;
mod lists;
mod places;
mod shared;

pub use claim::Claim;
pub use derivation::{Derivation, Node};
pub use judgement::{Judgement, Rule};
pub use places::same_at;
