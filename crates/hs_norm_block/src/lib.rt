//! The blocks of methods: names that are used before their declaration, kinds, and numbers of arguments.
//!
//! `block` collects the faults of a block, exactly those of the function of `specs/` from trees. `push_locals` lists
//! its locals. The normal form of a method keeps the tree of its block.
#![tactic(auto)]

mod blocks;
mod locals;

pub use blocks::block;
pub use locals::push_locals;
