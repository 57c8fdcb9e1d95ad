//! What derivations that are written of a source and its program are.
//!
//! Nodes that are right stay right behind others, which the contract of [`moved_nodes_are_right`] states. All nodes that
//! are written are right, each line that is not open names a node which concludes its claim, there is a line for each
//! claim, and where none is open every claim is listed: the contract of [`proved_texts_are_right`].
#![tactic(auto)]

mod laws;

pub use laws::{moved_nodes_are_right, proved_texts_are_right};
