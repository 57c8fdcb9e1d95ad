//! Lists of right steps: proofs of goals, and proofs put together.
//!
//! A proof is a list of steps, each right with premises among those before it, of which the last concludes the goal. What
//! has a proof holds, and its residue keeps numbers apart. `join` puts proofs one after the other under a step that
//! concludes from them, and where that step is right the result is a proof.
#![tactic(auto)]

mod joining;
mod laws;

pub use joining::{join, residue_shown};
pub use laws::{joined_proofs_are_proofs, proofs_are_fresh, proofs_hold, residue_is_shown};
