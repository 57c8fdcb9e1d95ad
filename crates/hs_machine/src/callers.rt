//! Calls, and what they return to.

ghost use Rattle.std.specs.Prelude.{◌≡◌, Some, ◌++◌, [], ◌∷◌, ◌+◌, ◌<◌, ◌≤◌, ◌^◌, length, map, IfOk};
ghost use Rattle.std.specs.List.{All};
ghost use Rattle.hs_core.specs.Machine.{called, picked, all_updated, method_of};
ghost use Rattle.hs_core.specs.Machine as machine;
ghost use Rattle.hs_core.specs.Sound.{IsUpTo};
ghost use Rattle.hs_machine.specs.Read.{slots_of, frame_of, FrameIn, HasRoom, TakesBack, IsResumed};

use crate::frame::Frame;
use hs_core::{Instr, Method, Program};
use hs_pure::NoMemory;
use sqlite_items::Items;
use std::alloc::Global;
use std::mem;

// The method of a number from 1.
pub fn method(program: &Program, number: u32) -> &Method
    requires { IsUpTo (length program.now.methods) number }
    ensures { result.now ≡ method_of program.now number }
{
    &program.methods.as_slice()[number as usize - 1]
}

// The instruction of a frame.
pub fn instruction<'a>(program: &'a Program, frame: &Frame) -> &'a Instr
    requires { FrameIn program.now frame.now }
    ensures { machine.instruction program.now (frame_of frame.now) ≡ Some result.now }
{
    &method(program, frame.method).code.as_slice()[frame.point as usize]
}

// The frame in which a method begins.
pub fn callee(
    alloc: Global,
    program: &Program,
    number: u32,
    args: &[i128],
) -> Result<Frame, NoMemory>
    requires there { IsUpTo (length program.now.methods) number }
    requires args { length args.now ≤ (method_of program.now number).slots }
    ensures frame { IfOk result (λ f. frame_of f ≡ called number args.now) }
    ensures slots { IfOk result (λ f. length f.slots ≡ (method_of program.now number).slots) }
    ensures few { IfOk result (λ f. length f.slots < 2 ^ 32) }
{
    let count = method(program, number).slots as usize;
    let mut slots = Vec::from_slice(alloc, args)?;
    slots.resize(count, 0)?;
    Ok(Frame {
        method: number,
        point: 0,
        slots: Items::from_vec(slots),
    })
}

// Lets a method begin, with its caller above the others.
pub fn call(
    alloc: Global,
    program: &Program,
    frame: &mut Frame,
    callers: &mut Items<Frame>,
    number: u32,
    args: &[u32],
) -> Result<(), NoMemory>
    requires there { IsUpTo (length program.now.methods) number }
    requires args { All (IsUpTo (length frame.old.slots)) args.now × (length args.now ≤ (method_of program.now number).slots) }
    ensures frame { IfOk result (λ _. frame_of frame.new ≡ called number (map (slots_of frame.old.slots) args.now)) }
    ensures slots { IfOk result (λ _. length frame.new.slots ≡ (method_of program.now number).slots) }
    ensures few { IfOk result (λ _. length frame.new.slots < 2 ^ 32) }
    ensures callers { IfOk result (λ _. callers.new ≡ callers.old ++ frame.old ∷ []) }
{
    let values = frame.get_all(alloc, args)?;
    let callee = callee(alloc, program, number, values.as_slice())?;
    let caller = mem::replace(frame, callee);
    callers.push(caller)?;
    Ok(())
}

// Puts the last values of reference parameters into the argument slots.
fn put_refs(caller: &mut Frame, args: &[u32], numbers: &[u32], values: &[i128])
    requires args { All (IsUpTo (length caller.old.slots)) args.now }
    requires numbers { All (IsUpTo (length args.now)) numbers.now }
    ensures frame { frame_of caller.new ≡ record (frame_of caller.old) { slots = all_updated (picked args.now numbers.now) values.now (slots_of caller.old.slots) } }
    ensures slots { length caller.new.slots ≡ length caller.old.slots }
{
    match numbers {
        [] => {}
        [number, numbers @ ..] => {
            match values {
                [] => {}
                [value, values @ ..] => {
                    put_refs(caller, args, numbers, values);
                    caller.set(args[*number as usize - 1], *value);
                }
            }
        }
    }
}

// Lets a caller go on with what its call gave back.
pub fn resume(program: &Program, caller: &mut Frame, given: Option<i128>, values: &[i128])
    requires there { FrameIn program.now caller.old }
    requires room { HasRoom caller.old }
    requires takes { TakesBack program.now caller.old given }
    ensures { IsResumed program.now caller.old given values.now caller.new }
{
    match instruction(program, &*caller) {
        Instr::Call(to, number, args) => {
            let refs = &method(program, *number).refs;
            put_refs(caller, args.as_slice(), refs.as_slice(), values);
            match *to {
                None => caller.advance(),
                Some(to) => {
                    match given {
                        Some(value) => caller.put(to, value),
                        None => unreachable!(),
                    }
                }
            }
        }
        _ => unreachable!(),
    }
}
