//! Blocks and their rows.

use crate::programs::{data_types, program};
use crate::runs::push_run;
use hs_core::Program;
use hs_heap::Defs;
use hs_tests_formulas::NoRow;
use std::alloc::Global;
use std::str;

fn push_sound(out: &mut String, defs: &Defs, program: &Program) -> Result<(), NoRow> {
    if program.sound(defs) {
        write!(out, "  yes\n")?;
    } else {
        write!(out, "  no\n")?;
    }
    Ok(())
}

// A line of a method has no answer.
fn push_row(
    alloc: Global,
    out: &mut String,
    defs: &Defs,
    program: &Program,
    line: &str,
) -> Result<(), NoRow> {
    if line == "sound" {
        return push_sound(out, defs, program);
    }
    match line.strip_prefix("run ") {
        Some(row) => push_run(alloc, out, defs, program, row),
        None => Ok(()),
    }
}

// A row that is none says so.
fn push_answer(
    alloc: Global,
    out: &mut String,
    defs: &Defs,
    program: &Program,
    line: &str,
) -> Result<(), NoRow> {
    if let Err(NoRow) = push_row(alloc, out, defs, program, line) {
        write!(out, "  no row\n")?;
    }
    Ok(())
}

fn push_lines(
    alloc: Global,
    out: &mut String,
    defs: &Defs,
    program: &Program,
    block: &str,
) -> Result<(), NoRow> {
    for line in block.lines() {
        write!(out, "{line}\n")?;
        push_answer(alloc, out, defs, program, line)?;
    }
    Ok(())
}

fn push_block(alloc: Global, out: &mut String, defs: &Defs, block: &str) -> Result<(), NoRow> {
    match program(alloc, block) {
        Ok(program) => push_lines(alloc, out, defs, &program, block),
        Err(NoRow) => {
            write!(out, "{block}\n  no row\n")?;
            Ok(())
        }
    }
}

/// Each block, with the answers of its rows.
pub fn table(alloc: Global, bytes: &[u8]) -> Result<String, NoRow> {
    let mut out = String::new(alloc);
    let Ok(text) = str::from_utf8(bytes) else {
        return Err(NoRow);
    };
    let defs = data_types(alloc)?;
    for block in text.split("\n\n") {
        push_block(alloc, &mut out, &defs, block)?;
        write!(out, "\n")?;
    }
    Ok(out)
}
