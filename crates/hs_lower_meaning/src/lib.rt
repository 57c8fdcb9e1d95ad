//! Lowered methods run as their blocks.
//!
//! The crate has a law alone, as the contract of a function without a body. What a block of statements does is
//! said by its tree: over unbounded integers, with the values of its variables and a heap. A run of the lowered
//! method returns where the block's run does, with the same result and heap, and faults where it does.
#![tactic(auto)]

mod laws;

pub use laws::blocks_are_run;
