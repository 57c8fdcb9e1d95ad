//! The table of program rules: laws alone, no calls.
//!
//! `specs/` has the states, the table (where a rule applies, the goal that it asks, its further premises), and when a
//! state is safe: no run from a frame and heap that fit it touches what is not allocated, and one that returns leaves a
//! part that satisfies the postcondition beside an unchanged rest. The start of each pair of a sound program is well
//! formed, a right step keeps states safe, and concluded states are safe for every number of steps.
#![tactic(auto)]

mod laws;

pub use laws::{concluded_states_are_safe, entries_fit, right_steps_keep_safe};
