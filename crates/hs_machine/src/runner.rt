//! Runs of methods.

ghost use Rattle.std.specs.Prelude.{◌≡◌, [], IfOk};
ghost use Rattle.hs_machine.specs.Read.{CanBegin};
ghost use Rattle.hs_machine.specs.End.{IsEnd};

use crate::machine::Machine;
use crate::simple::Turn;
use hs_core::Program;
use hs_heap::Heap;
use hs_pure::NoMemory;
use sqlite_items::Items;
use std::alloc::Global;

/// How a run ended.
#[derive(Debug, Drop)]
pub enum RunAnswer {
    /// The first frame returned, with its result.
    Returned(Option<i128>),
    /// All steps were done, and the first frame has not returned.
    Running,
    /// At this instruction of this method the location has no node of the data type.
    Fault(u32, u32, i128),
    /// At this instruction of this method a number has more than 128 bits.
    Wide(u32, u32),
}

/// The end of a run, with the heap, the steps that were done and, where the first frame returned, the last values
/// of its reference parameters.
#[derive(Drop)]
pub struct RunEnd {
    pub answer: RunAnswer,
    pub heap: Heap,
    pub done: u64,
    pub refs: Items<i128>,
}

/// Runs a method, numbered from 1, on one argument for each parameter and on a heap, for at most so many steps. For some
/// definitions the program is sound, and each node of the heap has a value for each field of its data type.
///
/// An instruction is one step, and so are a call and its return. A new node takes the least location that has none. Where
/// so many steps were done, no further instruction is looked at; one that faults, or whose numbers pass 128 bits, changes
/// nothing and is not counted. `NoMemory` comes where there is none.
pub fn run(
    alloc: Global,
    program: &Program,
    number: u32,
    args: &[i128],
    heap: Heap,
    steps: u64,
) -> Result<RunEnd, NoMemory>
    requires { CanBegin program.now number args.now heap }
    ensures { IfOk result (λ end. IsEnd program.now number args.now heap steps end) }
{
    let mut machine = Machine::start(alloc, program, number, args, heap)?;
    for done in 0..steps {
        match machine.step(alloc, program)? {
            Turn::Done => {}
            Turn::Returned(result, refs) => {
                return Ok(RunEnd {
                    answer: RunAnswer::Returned(result),
                    heap: machine.heap.into_heap(),
                    done: done + 1,
                    refs,
                });
            }
            Turn::Fault(place) => {
                let answer = RunAnswer::Fault(machine.frame.method, machine.frame.point, place);
                return Ok(stopped(alloc, answer, machine.heap.into_heap(), done));
            }
            Turn::Wide => {
                let answer = RunAnswer::Wide(machine.frame.method, machine.frame.point);
                return Ok(stopped(alloc, answer, machine.heap.into_heap(), done));
            }
        }
    }
    Ok(stopped(alloc, RunAnswer::Running, machine.heap.into_heap(), steps))
}

fn stopped(alloc: Global, answer: RunAnswer, heap: Heap, done: u64) -> RunEnd
    ensures { result ≡ record { answer = answer; heap = heap; done = done; refs = [] } }
{
    RunEnd {
        answer,
        heap,
        done,
        refs: Items::new(alloc),
    }
}
