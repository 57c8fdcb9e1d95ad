//! What the translation of methods makes is set: a law, the contract of a function without a body. On each path through
//! a method, each slot that an instruction reads is a parameter or was written before.
#![tactic(auto)]

mod laws;

pub use laws::lowered_programs_are_set;
