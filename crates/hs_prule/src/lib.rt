//! Right steps of programs: the goal that a rule asks, its further premises, and the judgement of a whole step.
//!
//! `specs/` has what is answered of a rule at a state. `entry` is the start of a pair, and `state_fits` tells exactly
//! which states are well formed. `obligation` and `next` give the goal and the further premises as the table of program
//! rules states them, and `NotApplicable` exactly where the rule does not apply or a number would pass 2^30. `right`
//! names the first test that a step fails. A step that is right is a right step of the table.
#![tactic(auto)]

mod access;
mod applying;
mod conjoining;
mod entering;
mod fits;
mod further;
mod goals;
mod judge;
mod laws;
mod nodes;
mod premises;
mod states;

pub use entering::entry;
pub use fits::state_fits;
pub use goals::obligation;
pub use judge::right;
pub use laws::right_steps_are_steps;
pub use premises::next;
