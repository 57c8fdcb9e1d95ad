//! Core programs: methods with their pairs of pre- and postconditions and their instructions.
//!
//! `specs/` has the machine (frames, steps and runs over unbounded integers, and the runs of the runner, which takes
//! the least free place and numbers of 128 bits), when a program is sound over definitions, and when it is set. A
//! copy of a value is an equal value. `Program::sound` tells exactly whether a program is sound, and takes no memory.
//! The functions of `laws` have no body: their contracts are the laws of runs that the layers above use.
#![tactic(auto)]

mod conditions;
mod copies;
mod formulas;
mod instr;
mod instrs;
mod laws;
mod program;
mod pures;
mod scope;
mod shared;
mod sound;
mod state;

pub use instr::Instr;
pub use laws::{runner_runs_agree, runner_runs_are_runs};
pub use program::{Method, Pair, Program};
pub use state::{At, PRule, State};
