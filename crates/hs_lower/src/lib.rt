//! Lowering: the core program of a source in normal form.
//!
//! `lower` gives exactly the translation that `specs/` defines: slots by the order of parameters and declarations,
//! an instruction for each step of a statement, and forward jumps for branches. Where methods have faults it gives
//! the first of them. Each definition is a function from the trees of a source.
#![tactic(auto)]

mod blocks;
mod conditions;
mod lowering;
mod made;
mod values;

pub use hs_lower_faults::LowerError;
pub use lowering::lower;
