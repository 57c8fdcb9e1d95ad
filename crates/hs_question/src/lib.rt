//! What an entailment rule makes of its premises, and what it asks.
//!
//! `residue` gives the residue of a goal from those of its subgoals, and `question` what is asked of numbers and bags
//! where the rule has no subgoals, both exactly as the table of rules states them.
#![tactic(auto)]

mod asking;
mod laws;
mod parts;
mod questions;
mod residues;

pub use laws::questions_can_be_asked;
pub use questions::question;
pub use residues::residue;
