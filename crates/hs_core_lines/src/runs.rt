//! Runs of a method on a heap text.

ghost use Rattle.std.specs.Prelude.{◌≡◌, ◌<◌, ◌^◌, length, IfErr, IfOk, MatchOption};
ghost use Rattle.std.specs.List.{position};
ghost use Rattle.std.specs.Str.{bytes_eq};
ghost use Rattle.hs_core.specs.declared.program.Program.{Program};
ghost use Rattle.hs_core.specs.Machine.{method_of};
ghost use Rattle.hs_core.specs.Sound.{IsSoundProgram};
ghost use Rattle.hs_core_lines.specs.Core.{HasProgram};
ghost use Rattle.hs_core_lines.specs.Run as spec;
ghost use Rattle.hs_core_lines.specs.Run.{AreRunLines, HasHeapCause, HasRunCause, HasStartCause, IsMethod, IsShortProgram, Starts};
ghost use Rattle.hs_heaptext.specs.Reading.{States};

use crate::error::CoreError;
use crate::programs::{alone, program};
use hs_core::{Method, Program};
use hs_heap::{Defs, Heap};
use hs_heaptext::{HeapTextError, read_heap, write_heap};
use hs_machine::{RunAnswer, RunEnd, run};
use hs_norm::Resolved;
use hs_print::{Line, Refusal};
use hs_pure::NoMemory;
use hs_text::Text;
use sqlite_items::Items;
use std::alloc::Global;

// The arguments and the heap that a text states.
fn stated(alloc: Global, defs: &Defs, text: &[u8]) -> Result<(Items<i128>, Heap), CoreError>
    requires few { length defs.now.nodes < 2 ^ 32 }
    requires short { length text.now < 2 ^ 32 }
    ensures found { IfOk result (λ r. States defs.now text.now r.0 r.1) }
    ensures cause { IfErr result (HasHeapCause defs.now text.now) }
{
    match read_heap(alloc, defs, text) {
        Ok(found) => Ok(found),
        Err(HeapTextError::Line(line)) => Err(CoreError::Refused(Refusal::HeapLine(line))),
        Err(HeapTextError::Memory) => Err(CoreError::Memory),
    }
}

// Where the first method of the name stands.
fn place(methods: &[Method], name: &Text) -> Option<usize>
    ensures { result ≡ position (λ m. bytes_eq m.name name.now) methods.now }
{
    methods.iter().position(|m| m.name.same(name))
}

// The first method of the name, with its number from 1. There is no memory for 2^32 or more methods.
fn method<'a>(program: &'a Program, name: &Text) -> Result<Option<(u32, &'a Method)>, NoMemory>
    ensures { IfOk result (λ found. MatchOption found (spec.number_of program.now name.now ≡ 0) (λ m. IsMethod program.now name.now m.0 m.1.now)) }
{
    let methods = program.methods.as_slice();
    let Some(place) = place(methods, name) else {
        return Ok(None);
    };
    if place >= u32::MAX as usize {
        return Err(NoMemory);
    }
    Ok(Some((place as u32 + 1, &methods[place])))
}

// The method, the arguments and the heap that a run begins with.
fn start(
    alloc: Global,
    defs: &Defs,
    program: &Program,
    name: &Text,
    text: &[u8],
) -> Result<(u32, Items<i128>, Heap), CoreError>
    requires few { length defs.now.nodes < 2 ^ 32 }
    requires short { length text.now < 2 ^ 32 }
    ensures found { IfOk result (λ r. Starts defs.now program.now name.now text.now r.0 r.1 r.2) }
    ensures cause { IfErr result (HasStartCause defs.now program.now name.now text.now) }
{
    let (args, heap) = stated(alloc, defs, text)?;
    let Some((number, method)) = method(program, name)? else {
        let name = name.copy(alloc)?;
        return Err(CoreError::Refused(Refusal::UnknownMethod(name)));
    };
    if args.len() != method.params as usize {
        let name = name.copy(alloc)?;
        return Err(CoreError::Refused(Refusal::MethodTakes(name, method.params)));
    }
    Ok((number, args, heap))
}

// The name of a method by its number from 1.
fn name(alloc: Global, program: &Program, number: u32) -> Result<Text, NoMemory>
    ensures { IfOk result (λ name. name ≡ (method_of program.now number).name) }
{
    if number == 0 {
        return Ok(Text::from_str(alloc, "")?);
    }
    match program.methods.as_slice().get(number as usize - 1) {
        Some(method) => Ok(method.name.copy(alloc)?),
        None => Ok(Text::from_str(alloc, "")?),
    }
}

// The line of a run that ended.
fn end_line(alloc: Global, defs: &Defs, program: &Program, end: &RunEnd) -> Result<Line, NoMemory>
    ensures { IfOk result (λ line. line ≡ spec.end_line defs.now program.now end.now) }
{
    match end.answer {
        RunAnswer::Returned(result) => {
            let heap = write_heap(alloc, defs, &[], &end.heap)?;
            Ok(Line::Returned(result, end.done, Text::new(heap)))
        }
        RunAnswer::Running => Ok(Line::Running(end.done)),
        RunAnswer::Fault(number, point, place) => {
            Ok(Line::Fault(name(alloc, program, number)?, point, place))
        }
        RunAnswer::Wide(number, point) => Ok(Line::RunWide(name(alloc, program, number)?, point)),
    }
}

/// The line of `run`: how a run of the first method of this name ends, on the arguments and the heap that the text
/// states, after at most so many steps. The text has fewer than 2^32 bytes, there are fewer than 2^32 data types, and the
/// core program of the source is sound, with at most 4,096 instructions a method. `Refused` has the first fault that keeps
/// the source from having a core program, or else what is wrong with the text, the method's name or the number of
/// arguments, and `Memory` comes where there is none.
pub fn run_lines(
    alloc: Global,
    resolved: &Resolved,
    method: &Text,
    text: &[u8],
    steps: u64,
) -> Result<Items<Line>, CoreError>
    requires sound { (p : Program) → HasProgram resolved.now p → IsSoundProgram resolved.now.defs p }
    requires brief { (p : Program) → HasProgram resolved.now p → IsShortProgram p }
    requires few { length resolved.now.defs.nodes < 2 ^ 32 }
    requires short { length text.now < 2 ^ 32 }
    ensures lines { IfOk result (AreRunLines resolved.now method.now text.now steps) }
    ensures cause { IfErr result (HasRunCause resolved.now method.now text.now) }
{
    let program = program(alloc, resolved)?;
    let (number, args, heap) = start(alloc, &resolved.defs, &program, method, text)?;
    let end = run(alloc, &program, number, args.as_slice(), heap, steps)?;
    let line = end_line(alloc, &resolved.defs, &program, &end)?;
    Ok(alone(alloc, line)?)
}
