//! Derivations checked against what their sources claim.
//!
//! [`check`] accepts a derivation only where every node is right and each claim has a line that names a node which
//! concludes it. Else it names the first node that is not right with the first of its tests that fails, or the first
//! claim without its conclusion. It stops only where a question passes a bound; where none does, a derivation that
//! lists every claim is accepted.
//!
//! Listed claims are true: each entailment holds with the residue that its line names, and the start of each pair is
//! safe for every number of steps. [`right_states_are_concluded`] states the same of right nodes alone: where all
//! invariants hold, each state that a node has is concluded.
#![tactic(auto)]

mod answers;
mod checking;
mod concludes;
mod entailed;
mod judge;
mod laws;
mod named;
mod run;
mod shown;
mod tables;

pub use checking::check;
pub use hs_check::{Reason, Spent, Verdict};
pub use laws::{listed_entailments_hold, listed_pairs_are_safe, right_states_are_concluded};
