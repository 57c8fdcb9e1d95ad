//! The instructions of a method.

ghost use Rattle.std.specs.Prelude.{◌≡◌, ◌++◌, OnOk};
ghost use Rattle.std.specs.String.{string_bytes};
ghost use Rattle.hs_core_text.specs.Text.{code_text};

use crate::instr::push_instr;
use hs_core::{Instr, Program};
use hs_heap::Defs;
use hs_numbering::Names;
use hs_text::NoMemory;
use std::alloc::Global;

// Adds a line for each instruction.
pub fn push_code(
    alloc: Global,
    out: &mut String,
    defs: &Defs,
    program: &Program,
    names: &Names,
    code: &[Instr],
) -> Result<(), NoMemory>
    ensures { OnOk result (string_bytes out.new ≡ string_bytes out.old ++ code_text defs.now program.now names.now 0 code.now) }
{
    let mut number = 0usize;
    for instr in code {
        write!(out, "  {number}: ")?;
        push_instr(alloc, out, defs, program, names, instr)?;
        write!(out, "\n")?;
        number += 1;
    }
    Ok(())
}
