//! What is made of a part of a block.

use hs_core::Instr;
use sqlite_items::Items;

/// Instructions, the last slot that is used after them, and whether their end can be reached.
#[derive(Drop)]
pub struct Made {
    pub code: Items<Instr>,
    pub slots: u32,
    pub ends: bool,
}

/// A value that stands in a slot after these instructions.
#[derive(Drop)]
pub struct Placed {
    pub code: Items<Instr>,
    pub slots: u32,
    pub slot: u32,
}

/// Values that stand in slots after these instructions.
#[derive(Drop)]
pub struct PlacedAll {
    pub code: Items<Instr>,
    pub slots: u32,
    pub args: Items<u32>,
}
