//! Founded definitions: where each case of a predicate without root node has no atom, each other case has one
//! node at its root, and every atom hangs on what is reached from there.
//!
//! [`founded`] tells exactly whether definitions are founded, and of those that are not the first fault. In
//! founded definitions each unfolding takes a node, so that a heap bounds how deep predicates are unfolded:
//! [`depth_is_enough`].
#![tactic(auto)]

mod case;
mod error;
mod first;
mod laws;
mod links;
mod marks;
mod reached;
mod shared;

pub use error::WfError;
pub use first::founded;
pub use laws::{depth_is_enough, faults_exclude_founded, first_faults_are_unique};
