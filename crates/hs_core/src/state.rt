ghost use Rattle.std.specs.Prelude.{◌≡◌, IfOk};

use hs_heap::Formula;
use hs_pure::{NoMemory, Var};
use sqlite_items::Items;
use std::alloc::Global;

/// What is known at a point of a method: the variable that has the value of each slot, where one has it, and what
/// heap and variables satisfy. Slot k stands at k - 1. New numbers begin at `next`.
#[derive(Debug, Drop)]
pub struct State {
    pub slots: Items<Option<Var>>,
    pub formula: Formula,
    pub next: u32,
}

impl State {
    /// An equal state.
    pub fn copy(&self, alloc: Global) -> Result<State, NoMemory>
        ensures same { IfOk result (λ s. s ≡ self.now) }
    {
        Ok(State {
            slots: Items::from_slice(alloc, self.slots.as_slice())?,
            formula: self.formula.copy(alloc)?,
            next: self.next,
        })
    }
}

/// A state at the next instruction of a method that shows a pair. Methods and pairs are numbered from 1, points
/// from 0.
#[derive(Debug, Drop)]
pub struct At {
    pub method: u32,
    pub pair: u32,
    pub point: u32,
    pub state: State,
}

impl At {
    /// An equal state at an equal point.
    pub fn copy(&self, alloc: Global) -> Result<At, NoMemory>
        ensures same { IfOk result (λ a. a ≡ self.now) }
    {
        Ok(At {
            method: self.method,
            pair: self.pair,
            point: self.point,
            state: self.state.copy(alloc)?,
        })
    }
}

/// A rule of programs: by the disjuncts of a state, or by its instruction.
#[derive(Clone, Copy, Debug, PartialEq, Eq)]
pub enum PRule {
    Or,
    Assign,
    New,
    Get,
    Set,
    Branch,
    Jump,
    /// By a pair of the called method, by number from 1.
    Call(u32),
    Return,
}
