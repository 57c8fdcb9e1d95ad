//! The faults of a method that keep it from being translated to a core program.
//!
//! `method_fault` gives the first fault of a method, in the order of the text and of several at one place the one
//! that `LowerError` names first, exactly as the definitions of `specs/` note them: where types do not fit, where a
//! variable is read that is not set, and an end that can be reached in a method with result.
#![tactic(auto)]

mod ends;
mod error;
mod exprs;
mod faults;
mod first;
mod reads;
mod set;
mod setting;
mod types;

pub use ends::block_ends;
pub use error::LowerError;
pub use faults::method_fault;
pub use first::earlier;
