//! Proofs of goals as nodes of derivations.
//!
//! [`push_proof`] adds the steps of a proof behind the nodes that are there, each as a node with the same premises. Where
//! those nodes are right and the proof is one, all nodes are right, and the last concludes the proof's goal with its
//! residue, which the contract of [`proofs_are_right_nodes`] states.
#![tactic(auto)]

mod laws;
mod pushing;

pub use laws::proofs_are_right_nodes;
pub use pushing::push_proof;
