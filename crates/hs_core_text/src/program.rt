//! Methods and programs.

ghost use Rattle.std.specs.Prelude.{◌≡◌, ◌++◌, IfOk, OnOk, codes};
ghost use Rattle.std.specs.Fmt.{decimal};
ghost use Rattle.std.specs.String.{string_bytes};
ghost use Rattle.hs_print.specs.Lists.{each_after};
ghost use Rattle.hs_core_text.specs.Text.{refs_text, head_text, method_text, core_text};

use crate::code::push_code;
use crate::slots::slot_names;
use hs_core::{Method, Program};
use hs_heap::Defs;
use hs_text::NoMemory;
use std::alloc::{AllocError, Global};

fn push_numbers(out: &mut String, numbers: &[u32]) -> Result<(), AllocError>
    ensures { OnOk result (string_bytes out.new ≡ string_bytes out.old ++ each_after (codes " ") decimal numbers.now) }
{
    for number in numbers {
        write!(out, " {number}")?;
    }
    Ok(())
}

fn push_refs(out: &mut String, refs: &[u32]) -> Result<(), AllocError>
    ensures { OnOk result (string_bytes out.new ≡ string_bytes out.old ++ refs_text refs.now) }
{
    if refs.is_empty() {
        return Ok(());
    }
    write!(out, " refs")?;
    push_numbers(out, refs)
}

fn push_head(out: &mut String, m: &Method) -> Result<(), AllocError>
    ensures { OnOk result (string_bytes out.new ≡ string_bytes out.old ++ head_text m.now) }
{
    let name = &m.name;
    let params = m.params;
    let slots = m.slots;
    write!(out, "method {name} params {params} slots {slots}")?;
    push_refs(out, m.refs.as_slice())?;
    write!(out, "\n")
}

fn push_method(
    alloc: Global,
    out: &mut String,
    defs: &Defs,
    program: &Program,
    m: &Method,
) -> Result<(), NoMemory>
    ensures { OnOk result (string_bytes out.new ≡ string_bytes out.old ++ method_text defs.now program.now m.now) }
{
    push_head(out, m)?;
    let names = slot_names(alloc, m.slots)?;
    push_code(alloc, out, defs, program, &names, m.code.as_slice())
}

/// The text of a program. Each data type, field and method that an instruction names is to be there: one that is
/// not prints as the empty name.
pub fn core(alloc: Global, program: &Program, defs: &Defs) -> Result<String, NoMemory>
    ensures { IfOk result (λ text. string_bytes text ≡ core_text defs.now program.now) }
{
    let mut out = String::new(alloc);
    for m in program.methods.as_slice() {
        push_method(alloc, &mut out, defs, program, m)?;
    }
    Ok(out)
}
