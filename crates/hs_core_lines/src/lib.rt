//! The lines of `core` and `run` in a report.
//!
//! [`core_lines`] prints the core program of a source in normal form. [`run_lines`] runs a method of it on a heap text:
//! its line tells the return, the fault, the number past 128 bits or the end of the steps, as the machine of the core
//! language does. Where a source has no core program, its refusal is that of the first fault; a run is refused first for
//! the heap text, then for the method's name, then for the number of its arguments. The functions of `laws` have no body:
//! by their contracts a source has a core program or a fault and not both, and one of either.
#![tactic(auto)]

mod error;
mod laws;
mod programs;
mod runs;

pub use error::CoreError;
pub use laws::{
    core_lines_are_unique, lowering_faults_are_unique, programs_have_no_lowering_fault,
};
pub use programs::{core_lines, program};
pub use runs::run_lines;
