//! States of programs are well formed: laws alone, no calls.
//!
//! The goal that a rule asks of a well-formed state is well formed, and so are its further premises where the residue of
//! the goal is. Residues of right steps are. A state is prepared where a path leads to its point and a variable has the
//! value of each slot that is a parameter or that the path writes: the start of a pair is prepared, further premises stay
//! prepared, and in a set program a simple prepared state has the rules of its instruction.
#![tactic(auto)]

mod laws;

pub use laws::{
    asked_goals_fit, entries_are_prepared, premises_are_prepared, premises_fit,
    prepared_states_are_read, right_steps_stay_formed, simple_states_have_rules,
};
