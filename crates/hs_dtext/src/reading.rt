//! What was read so far.

use hs_line::{Fault, Stop};
use hs_node::{Judgement, Node};
use hs_pure::NoMemory;
use sqlite_items::Items;
use std::alloc::AllocError;

/// What stands behind the rule of a node.
#[derive(Drop)]
pub struct Body {
    pub premises: Items<u32>,
    pub judgement: Judgement,
}

/// Which lines may come.
#[derive(Clone, Copy)]
pub enum Stage {
    Nodes,
    Claims,
    Ended,
}

/// The nodes and claims of the lines so far.
#[derive(Drop)]
pub struct Reading {
    pub stage: Stage,
    pub nodes: Items<Node>,
    pub claims: Items<(u32, u32)>,
}

/// What is wrong with a line, before it has its number.
#[derive(Clone, Copy)]
pub enum LineError {
    Version(u32),
    Forward,
    Bad(Fault),
    Memory,
}

impl From<Fault> for LineError {
    ghost use Rattle.std.specs.Prelude.{◌≡◌};
    ghost use Rattle.hs_dtext.specs.declared.reading.LineError.TheVariants.{Bad};

    ghost from_gives = { λ f e. e ≡ Bad f };

    fn from(fault: Fault) -> LineError {
        LineError::Bad(fault)
    }
}

impl From<Stop> for LineError {
    ghost use Rattle.std.specs.Prelude.{◌≡◌};
    ghost use Rattle.hs_dtext.specs.Stops.{line_error};

    ghost from_gives = { λ s e. e ≡ line_error s };

    fn from(stop: Stop) -> LineError {
        match stop {
            Stop::Fault(fault) => LineError::Bad(fault),
            Stop::Memory => LineError::Memory,
        }
    }
}

impl From<NoMemory> for LineError {
    ghost use Rattle.std.specs.Prelude.{◌≡◌};
    ghost use Rattle.hs_dtext.specs.declared.reading.LineError.TheVariants.{Memory};

    ghost from_gives = { λ _ e. e ≡ Memory };

    fn from(_: NoMemory) -> LineError {
        LineError::Memory
    }
}

impl From<AllocError> for LineError {
    ghost use Rattle.std.specs.Prelude.{◌≡◌};
    ghost use Rattle.hs_dtext.specs.declared.reading.LineError.TheVariants.{Memory};

    ghost from_gives = { λ _ e. e ≡ Memory };

    fn from(_: AllocError) -> LineError {
        LineError::Memory
    }
}
