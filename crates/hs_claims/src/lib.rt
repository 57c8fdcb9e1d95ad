//! What a source and its program claim.
//!
//! [`claims`] gives the invariants by predicate, then the first goals of the entailments, then the starts of the pairs
//! by method: exactly the list of the definition. [`goal_of`] gives the goal that an entailment asks.
#![tactic(auto)]

mod entries;
mod goals;
mod listed;
mod numbers;

pub use goals::goal_of;
pub use listed::claims;
