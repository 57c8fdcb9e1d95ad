//! Lines of words and numbers: what stands in them, read from the left up to the first fault.
//!
//! `specs/` says what is read as functions on bytes. Blanks may stand before each word, number and variable, and at
//! the end. Each public call answers exactly that, or want of memory.
#![tactic(auto)]

mod bytes;
mod fault;
mod lists;
mod pieces;
mod rest;
mod shared;

pub use bytes::{is_blank, past_blanks};
pub use fault::{Fault, Stop};
pub use lists::{numbers, slots, variables};
pub use pieces::Pieces;
pub use rest::{Rest, number_alone, variable_alone};
