//! Runs and their lines.

ghost use Rattle.std.specs.Prelude.{◌≡◌, length, IsTrue};
ghost use Rattle.hs_core.specs.Machine.{method_of};
ghost use Rattle.hs_core.specs.Sound.{IsUpTo};
ghost use Rattle.hs_machine.specs.Read.{IsShort};

use crate::words::small;
use hs_core::{Method, Program};
use hs_heap::{Defs, Heap};
use hs_heaptext::{read_heap, write_heap};
use hs_machine::{RunAnswer, RunEnd, run};
use hs_tests_formulas::{NoRow, cut};
use std::alloc::Global;

// The most bytes of a heap text, and the most data types.
const MOST_BYTES: usize = 1 << 20;

const MOST_TYPES: usize = 256;

// The most instructions of a method.
const MOST: usize = 1 << 20;

#[tactic(auto, using(crate::proofs::Short::short))]
fn is_short(program: &Program) -> bool
    ensures { IsTrue result → IsShort program.now }
{
    program
        .methods
        .as_slice()
        .iter()
        .all(|m| m.code.len() <= MOST)
}

// Whether the method is there and takes so many arguments.
fn takes(program: &Program, number: u32, count: usize) -> bool
    ensures there { IsTrue result → IsUpTo (length program.now.methods) number }
    ensures count { IsTrue result → count ≡ (method_of program.now number).params }
{
    if number == 0 {
        return false;
    }
    match program.methods.as_slice().get(number as usize - 1) {
        Some(method) => method.params as usize == count,
        None => false,
    }
}

// The end of the run, where it may begin.
fn ended(
    alloc: Global,
    defs: &Defs,
    program: &Program,
    number: u32,
    args: &[i128],
    heap: Heap,
    steps: u64,
) -> Result<RunEnd, NoRow> {
    if !program.sound(defs) || !is_short(program) {
        return Err(NoRow);
    }
    if !takes(program, number, args.len()) || !heap.fits(defs) {
        return Err(NoRow);
    }
    Ok(run(alloc, program, number, args, heap, steps)?)
}

fn method(program: &Program, number: u32) -> Result<&Method, NoRow> {
    if number == 0 {
        return Err(NoRow);
    }
    match program.methods.as_slice().get(number as usize - 1) {
        Some(method) => Ok(method),
        None => Err(NoRow),
    }
}

// The name of a method, and a point of it.
fn push_place(out: &mut String, program: &Program, number: u32, point: u32) -> Result<(), NoRow> {
    let name = &method(program, number)?.name;
    write!(out, "{name} at {point}")?;
    Ok(())
}

fn push_line(out: &mut String, program: &Program, end: &RunEnd) -> Result<(), NoRow> {
    let done = end.done;
    match &end.answer {
        RunAnswer::Returned(Some(value)) => write!(out, "  returned {value} after {done} steps\n")?,
        RunAnswer::Returned(None) => write!(out, "  returned after {done} steps\n")?,
        RunAnswer::Running => write!(out, "  running after {done} steps\n")?,
        RunAnswer::Fault(number, point, place) => {
            write!(out, "  fault in ")?;
            push_place(out, program, *number, *point)?;
            write!(out, ": location {place}\n")?;
        }
        RunAnswer::Wide(number, point) => {
            write!(out, "  past 128 bits in ")?;
            push_place(out, program, *number, *point)?;
            write!(out, "\n")?;
        }
    }
    Ok(())
}

fn push_refs(out: &mut String, refs: &[i128]) -> Result<(), NoRow> {
    if refs.is_empty() {
        return Ok(());
    }
    write!(out, "  references")?;
    for value in refs {
        write!(out, " {value}")?;
    }
    write!(out, "\n")?;
    Ok(())
}

fn push_heap(alloc: Global, out: &mut String, defs: &Defs, heap: &Heap) -> Result<(), NoRow> {
    let text = write_heap(alloc, defs, &[], heap)?;
    for line in text.lines() {
        write!(out, "  {line}\n")?;
    }
    Ok(())
}

// The heap text of arguments and lines.
fn heap_text(alloc: Global, text: &str) -> Result<String, NoRow> {
    let mut out = String::new(alloc);
    write!(out, "heap 1\nargs")?;
    for line in text.split(" | ") {
        write!(out, "{line}\n")?;
    }
    Ok(out)
}

fn steps(text: &str) -> Result<u64, NoRow> {
    match text.parse::<u64>() {
        Ok(steps) => Ok(steps),
        Err(_) => Err(NoRow),
    }
}

/// The run of a row, and its end.
pub fn push_run(
    alloc: Global,
    out: &mut String,
    defs: &Defs,
    program: &Program,
    row: &str,
) -> Result<(), NoRow> {
    let (head, rest) = cut(row, " args")?;
    let (number, most) = cut(head, " ")?;
    let text = heap_text(alloc, rest)?;
    if text.len() > MOST_BYTES || defs.nodes.len() > MOST_TYPES {
        return Err(NoRow);
    }
    let Ok((args, heap)) = read_heap(alloc, defs, text.as_bytes()) else {
        return Err(NoRow);
    };
    let end = ended(
        alloc,
        defs,
        program,
        small(number)?,
        args.as_slice(),
        heap,
        steps(most)?,
    )?;
    push_line(out, program, &end)?;
    push_refs(out, end.refs.as_slice())?;
    push_heap(alloc, out, defs, &end.heap)
}
