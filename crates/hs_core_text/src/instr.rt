//! Instructions.

ghost use Rattle.std.specs.Prelude.{◌≡◌, ◌++◌, OnOk};
ghost use Rattle.std.specs.String.{string_bytes};
ghost use Rattle.hs_core_text.specs.Text.{field_text, target_text, return_text, assign_text, new_text, get_text, set_text, branch_text, call_text, instr_text};

use crate::lookup::{push_field, push_kind, push_method_name};
use crate::slots::{push_slot, push_slots};
use crate::term::push_term;
use hs_core::{Instr, Program};
use hs_heap::Defs;
use hs_numbering::Names;
use hs_print::pure;
use hs_pure::{Lin, Pure};
use hs_text::NoMemory;
use std::alloc::{AllocError, Global};

fn push_assign(
    alloc: Global,
    out: &mut String,
    names: &Names,
    to: u32,
    term: &Lin,
) -> Result<(), NoMemory>
    ensures { OnOk result (string_bytes out.new ≡ string_bytes out.old ++ assign_text names.now to term.now) }
{
    push_slot(out, to)?;
    write!(out, " = ")?;
    push_term(alloc, out, names, term)
}

fn push_new(
    out: &mut String,
    defs: &Defs,
    to: u32,
    kind: u32,
    args: &[u32],
) -> Result<(), AllocError>
    ensures { OnOk result (string_bytes out.new ≡ string_bytes out.old ++ new_text defs.now to kind args.now) }
{
    push_slot(out, to)?;
    write!(out, " = new ")?;
    push_kind(out, defs, kind)?;
    write!(out, "(")?;
    push_slots(out, args)?;
    write!(out, ")")
}

// Adds a field of the node at a slot.
fn push_place(
    out: &mut String,
    defs: &Defs,
    at: u32,
    kind: u32,
    field: u32,
) -> Result<(), AllocError>
    ensures { OnOk result (string_bytes out.new ≡ string_bytes out.old ++ field_text defs.now at kind field) }
{
    push_slot(out, at)?;
    write!(out, ".")?;
    push_kind(out, defs, kind)?;
    write!(out, ".")?;
    push_field(out, defs, kind, field)
}

fn push_get(
    out: &mut String,
    defs: &Defs,
    to: u32,
    at: u32,
    kind: u32,
    field: u32,
) -> Result<(), AllocError>
    ensures { OnOk result (string_bytes out.new ≡ string_bytes out.old ++ get_text defs.now to at kind field) }
{
    push_slot(out, to)?;
    write!(out, " = ")?;
    push_place(out, defs, at, kind, field)
}

fn push_set(
    out: &mut String,
    defs: &Defs,
    at: u32,
    kind: u32,
    field: u32,
    from: u32,
) -> Result<(), AllocError>
    ensures { OnOk result (string_bytes out.new ≡ string_bytes out.old ++ set_text defs.now at kind field from) }
{
    push_place(out, defs, at, kind, field)?;
    write!(out, " = ")?;
    push_slot(out, from)
}

fn push_branch(
    alloc: Global,
    out: &mut String,
    names: &Names,
    condition: &Pure,
    other: u32,
) -> Result<(), NoMemory>
    ensures { OnOk result (string_bytes out.new ≡ string_bytes out.old ++ branch_text names.now condition.now other) }
{
    let text = pure(alloc, condition, names)?;
    write!(out, "if {text} else {other}")?;
    Ok(())
}

fn push_target(out: &mut String, to: Option<u32>) -> Result<(), AllocError>
    ensures { OnOk result (string_bytes out.new ≡ string_bytes out.old ++ target_text to) }
{
    match to {
        None => Ok(()),
        Some(to) => write!(out, "s{to} = "),
    }
}

fn push_call(
    out: &mut String,
    program: &Program,
    to: Option<u32>,
    method: u32,
    args: &[u32],
) -> Result<(), AllocError>
    ensures { OnOk result (string_bytes out.new ≡ string_bytes out.old ++ call_text program.now to method args.now) }
{
    push_target(out, to)?;
    write!(out, "call ")?;
    push_method_name(out, program, method)?;
    write!(out, "(")?;
    push_slots(out, args)?;
    write!(out, ")")
}

fn push_return(out: &mut String, from: Option<u32>) -> Result<(), AllocError>
    ensures { OnOk result (string_bytes out.new ≡ string_bytes out.old ++ return_text from) }
{
    match from {
        None => write!(out, "return"),
        Some(from) => write!(out, "return s{from}"),
    }
}

// Adds an instruction without its number.
pub fn push_instr(
    alloc: Global,
    out: &mut String,
    defs: &Defs,
    program: &Program,
    names: &Names,
    instr: &Instr,
) -> Result<(), NoMemory>
    ensures { OnOk result (string_bytes out.new ≡ string_bytes out.old ++ instr_text defs.now program.now names.now instr.now) }
{
    match instr {
        Instr::Assign(to, term) => push_assign(alloc, out, names, *to, term)?,
        Instr::New(to, kind, args) => push_new(out, defs, *to, *kind, args.as_slice())?,
        Instr::Get(to, at, kind, field) => push_get(out, defs, *to, *at, *kind, *field)?,
        Instr::Set(at, kind, field, from) => push_set(out, defs, *at, *kind, *field, *from)?,
        Instr::Branch(condition, other) => push_branch(alloc, out, names, condition, *other)?,
        Instr::Jump(target) => write!(out, "jump {target}")?,
        Instr::Call(to, method, args) => push_call(out, program, *to, *method, args.as_slice())?,
        Instr::Return(from) => push_return(out, *from)?,
    }
    Ok(())
}
