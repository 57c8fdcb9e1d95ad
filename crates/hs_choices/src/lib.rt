//! The rules that a proof search tries at a goal.
//!
//! `choices` gives them in order, exactly as `specs/` states them. `ask` answers the question of a rule, with values at
//! which it is false where it is not true. `stuck` says why nothing is tried at a goal. The first two stop only where
//! a question takes too many new numbers, atoms or numbers past 128 bits. The functions of `laws` do nothing: their
//! contracts are the laws that the layers above use. The rules that are tried have their conditions, and the weight of
//! a goal falls at each of them that is no fold, no unfold and no lemma step.
#![tactic(auto)]

mod asking;
mod atoms;
mod choosing;
mod error;
mod laws;
mod parts;
mod places;
mod shared;
mod stopping;

pub use asking::ask;
pub use choosing::choices;
pub use error::{AskError, Spent};
pub use laws::{
    choices_fall, choices_have_conditions, choices_use_up, classes_are_told, questions_are_told,
};
pub use stopping::stuck;
