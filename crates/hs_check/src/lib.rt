//! Checking a list of nodes against claims.
//!
//! What a right node is and when it concludes a claim is told by a [`Judge`]. [`check`] accepts a list only where it is
//! listed: every node is right, and each claim has a line that names a node which concludes it. Else it names the
//! first node that is not right and the test that it fails, or the least claim without its conclusion. A list that is
//! listed is accepted, unless a question passes a bound or memory runs out.
#![tactic(auto)]

mod checking;
mod judge;
mod shared;
mod verdict;

pub use checking::check;
pub use judge::Judge;
pub use verdict::{NodeAnswer, Reason, Spent, Verdict};
