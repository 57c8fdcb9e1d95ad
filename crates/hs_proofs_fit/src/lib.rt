//! Residues of proofs are formed: one law, no calls.
//!
//! The residue of a proof of entailment is well formed, with all its numbers below some number.
#![tactic(auto)]

mod laws;

pub use laws::proofs_are_formed;
