//! The text of core programs.
//!
//! `specs/Text` has the text: a line for each method and each of its instructions. Slot k prints as `sK`, also in
//! terms and conditions, which print as all formulas do. `core` writes exactly that. The function of `laws` has no
//! body: its contract is the law that a slot of a method prints as `sK` inside terms and conditions.
#![tactic(auto)]

mod code;
mod instr;
mod laws;
mod lookup;
mod program;
mod slots;
mod term;

pub use laws::slots_print_as_slots;
pub use program::core;
