//! The rules of entailment at atoms: a match of a right atom with a left one, and a predicate's body or a lemma's
//! right side in the place of an atom.
//!
//! Each call gives its subgoal exactly where the rule applies, as the table of rules states it, and `NotApplicable`
//! exactly where it does not.
#![tactic(auto)]

mod bodies;
mod matching;
mod parts;

pub use bodies::{fold, unfold, use_lemma};
pub use matching::match_atoms;
