//! The machine: frames and a heap.

ghost use Rattle.std.specs.Prelude.{◌≡◌, ◌∷◌, [], length, IfOk};
ghost use Rattle.hs_core.specs.Machine.{called};
ghost use Rattle.hs_machine.specs.Read.{frames_of, IsReady, CanBegin, IsTurn, IsGiven, CanGive};

use crate::arena::Arena;
use crate::callers::{call, callee, instruction, method, resume};
use crate::frame::Frame;
use crate::simple::{Turn, simple};
use hs_core::{Instr, Program};
use hs_heap::Heap;
use hs_pure::NoMemory;
use sqlite_items::Items;
use std::alloc::Global;

// A frame, the frames that wait for it, of which the last waits for it, and the heap.
#[derive(Drop)]
pub struct Machine {
    pub frame: Frame,
    pub callers: Items<Frame>,
    pub heap: Arena,
}

impl Machine {
    // The machine in which a method begins.
    pub fn start(
        alloc: Global,
        program: &Program,
        number: u32,
        args: &[i128],
        heap: Heap,
    ) -> Result<Machine, NoMemory>
        requires { CanBegin program.now number args.now heap }
        ensures frames { IfOk result (λ m. frames_of m ≡ called number args.now ∷ []) }
        ensures heap { IfOk result (λ m. m.heap ≡ heap) }
        ensures ready { IfOk result (λ m. IsReady program.now m) }
    {
        let frame = callee(alloc, program, number, args)?;
        Ok(Machine {
            frame,
            callers: Items::new(alloc),
            heap: Arena::new(heap),
        })
    }

    // Does the next instruction.
    pub fn step(&mut self, alloc: Global, program: &Program) -> Result<Turn, NoMemory>
        requires { IsReady program.now self.old }
        ensures { IfOk result (λ turn. IsTurn program.now self.old turn self.new) }
    {
        match instruction(program, &self.frame) {
            Instr::Call(_, number, args) => {
                call(
                    alloc,
                    program,
                    &mut self.frame,
                    &mut self.callers,
                    *number,
                    args.as_slice(),
                )?;
                Ok(Turn::Done)
            }
            Instr::Return(from) => self.give_back(alloc, program, *from),
            instr => simple(alloc, instr, &mut self.frame, &mut self.heap),
        }
    }

    // Returns to the last caller, or from the run.
    fn give_back(
        &mut self,
        alloc: Global,
        program: &Program,
        from: Option<u32>,
    ) -> Result<Turn, NoMemory>
        requires { CanGive program.now self.old from }
        ensures { IfOk result (λ turn. IsGiven program.now self.old from turn self.new) }
    {
        let given = self.frame.give(from);
        let refs = method(program, self.frame.method).refs.as_slice();
        let values = self.frame.get_all(alloc, refs)?;
        let Some(mut caller) = self.callers.pop() else {
            return Ok(Turn::Returned(given, values));
        };
        resume(program, &mut caller, given, values.as_slice());
        self.frame = caller;
        Ok(Turn::Done)
    }
}
