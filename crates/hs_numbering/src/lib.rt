//! The numbers of the variables of one claim, given in the order of the text, and the faults that are met.
//!
//! A part of a source is read by a function from the numbering before it to its result and the numbering
//! after it. Such a function never fails: it collects faults, each with its place, and `least` tells which of
//! them is answered. Each method's clause says that it built exactly that, unless memory ran out.
#![tactic(auto)]

mod fault;
mod first;
mod laws;
mod name;
mod names;
mod numbering;
mod scope;
mod shared;

pub use fault::{Fault, Limit, Problem};
pub use first::least;
pub use laws::least_is_first;
pub use name::{is_upper, numbered_var};
pub use names::Names;
pub use numbering::{Named, Numbering, Reading};
pub use scope::Scope;
