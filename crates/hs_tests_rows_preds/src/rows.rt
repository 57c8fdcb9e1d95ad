//! Rows and their answers.
ghost use Rattle.std.specs.Prelude.{◌≤◌, ◌^◌, IfOk};
ghost use Rattle.hs_heap.specs.Sound.{IsSound};

use crate::calls::{
    push_body, push_founded, push_instantiated, push_invariant, push_lemma, push_lines, push_xpure,
};
use crate::given::{NoRow, atoms, atoms_alone, resolved};
use crate::heaps::{push_heap, push_renamed};
use hs_heap::Defs;
use hs_norm::Resolved;
use std::alloc::Global;
use std::str;

// The first word of a text, and what follows the blank behind it.
fn word(text: &str) -> Result<(&str, &str), NoRow> {
    match text.split_once(" ") {
        Some(parts) => Ok(parts),
        None => Err(NoRow),
    }
}

// The first new number.
fn first_new(text: &str) -> Result<u32, NoRow>
    ensures { IfOk result (λ n. n ≤ 2 ^ 30) }
{
    match text.parse::<u32>() {
        Ok(fresh) if fresh <= 1 << 30 => Ok(fresh),
        _ => Err(NoRow),
    }
}

fn natural(text: &str) -> Result<u32, NoRow> {
    match text.parse::<u32>() {
        Ok(number) => Ok(number),
        Err(_) => Err(NoRow),
    }
}

fn location(text: &str) -> Result<i128, NoRow> {
    match text.parse::<i128>() {
        Ok(loc) => Ok(loc),
        Err(_) => Err(NoRow),
    }
}

fn level(text: &str) -> Result<u32, NoRow>
    ensures { IfOk result (λ n. n ≤ 3) }
{
    match text.parse::<u32>() {
        Ok(level) if level <= 3 => Ok(level),
        _ => Err(NoRow),
    }
}

fn push_instance_row(alloc: Global, out: &mut String, defs: &Defs, row: &str) -> Result<(), NoRow>
    requires { IsSound defs.now }
{
    let (fresh, text) = word(row)?;
    let fresh = first_new(fresh)?;
    let atoms = atoms(alloc, defs, text, fresh)?;
    push_instantiated(alloc, out, defs, atoms.as_slice(), fresh)
}

fn push_invariant_row(alloc: Global, out: &mut String, defs: &Defs, row: &str) -> Result<(), NoRow>
    requires { IsSound defs.now }
{
    let (fresh, text) = word(row)?;
    let fresh = first_new(fresh)?;
    let atoms = atoms(alloc, defs, text, fresh)?;
    push_invariant(alloc, out, defs, atoms.as_slice(), fresh)
}

fn push_lemma_row(alloc: Global, out: &mut String, defs: &Defs, row: &str) -> Result<(), NoRow>
    requires { IsSound defs.now }
{
    let (number, rest) = word(row)?;
    let (fresh, text) = word(rest)?;
    let number = natural(number)?;
    let fresh = first_new(fresh)?;
    let atoms = atoms(alloc, defs, text, fresh)?;
    push_lemma(alloc, out, defs, number, atoms.as_slice(), fresh)
}

fn push_rename_row(alloc: Global, out: &mut String, defs: &Defs, row: &str) -> Result<(), NoRow> {
    let (from, rest) = word(row)?;
    let (to, text) = word(rest)?;
    let from = natural(from)?;
    let to = natural(to)?;
    let f = atoms_alone(alloc, defs, text)?;
    push_renamed(alloc, out, defs, &f, from, to)
}

fn push_heap_row(alloc: Global, out: &mut String, row: &str) -> Result<(), NoRow> {
    let (first, rest) = word(row)?;
    let (second, third) = word(rest)?;
    push_heap(
        alloc,
        out,
        (location(first)?, location(second)?, location(third)?),
    )
}

fn push_body_row(alloc: Global, out: &mut String, defs: &Defs, row: &str) -> Result<(), NoRow>
    requires { IsSound defs.now }
{
    let (n, rest) = word(row)?;
    let (fresh, text) = word(rest)?;
    let level = level(n)?;
    let fresh = first_new(fresh)?;
    let atoms = atoms(alloc, defs, text, fresh)?;
    push_body(alloc, out, defs, level, atoms.as_slice(), fresh)
}

fn push_xpure_row(alloc: Global, out: &mut String, defs: &Defs, row: &str) -> Result<(), NoRow>
    requires { IsSound defs.now }
{
    let (n, rest) = word(row)?;
    let (fresh, text) = word(rest)?;
    let level = level(n)?;
    let fresh = first_new(fresh)?;
    let atoms = atoms(alloc, defs, text, fresh)?;
    push_xpure(alloc, out, defs, level, atoms.as_slice(), fresh)
}

fn push_named(alloc: Global, out: &mut String, defs: &Defs, row: &str) -> Result<(), NoRow>
    requires { IsSound defs.now }
{
    if row == "founded" {
        return push_founded(alloc, out, defs);
    }
    let (call, rest) = word(row)?;
    match call {
        "instantiate" => push_instance_row(alloc, out, defs, rest),
        "inv" => push_invariant_row(alloc, out, defs, rest),
        "lemma" => push_lemma_row(alloc, out, defs, rest),
        "rename" => push_rename_row(alloc, out, defs, rest),
        "heap" => push_heap_row(alloc, out, rest),
        "body" => push_body_row(alloc, out, defs, rest),
        "xpure" => push_xpure_row(alloc, out, defs, rest),
        _ => Err(NoRow),
    }
}

fn push_call(alloc: Global, out: &mut String, defs: &Defs, row: &str) -> Result<(), NoRow>
    requires { IsSound defs.now }
{
    write!(out, "  ")?;
    push_named(alloc, out, defs, row)?;
    write!(out, "\n")?;
    Ok(())
}

// The most atoms of a stage.
fn most(text: &str) -> Result<u64, NoRow>
    ensures { IfOk result (λ n. n ≤ 2 ^ 30) }
{
    match text.parse::<u64>() {
        Ok(atoms) if atoms <= 1 << 30 => Ok(atoms),
        _ => Err(NoRow),
    }
}

fn push_line_row(alloc: Global, out: &mut String, r: &Resolved, row: &str) -> Result<(), NoRow>
    requires { IsSound r.now.defs }
{
    let atoms = most(row)?;
    let preds = r.defs.preds.len();
    if preds > 1000 || r.pred_names.len() != preds {
        return Err(NoRow);
    }
    push_lines(alloc, out, r, atoms)
}

fn push_answer(alloc: Global, out: &mut String, r: &Resolved, row: &str) -> Result<(), NoRow> {
    if !r.defs.sound() {
        return Err(NoRow);
    }
    match row.split_once(" ") {
        Some(("lines", atoms)) => push_line_row(alloc, out, r, atoms),
        _ => push_call(alloc, out, &r.defs, row),
    }
}

fn push_row(
    alloc: Global,
    out: &mut String,
    source: &mut Option<Resolved>,
    row: &str,
) -> Result<(), NoRow> {
    if row.starts_with("data") || row.starts_with("pred") {
        *source = Some(resolved(alloc, row)?);
        return Ok(());
    }
    match source {
        Some(r) => push_answer(alloc, out, r, row),
        None => Err(NoRow),
    }
}

/// Each row, with its answer.
pub fn table(alloc: Global, bytes: &[u8]) -> Result<String, NoRow> {
    let mut out = String::new(alloc);
    let Ok(text) = str::from_utf8(bytes) else {
        return Err(NoRow);
    };
    // On the heap, so that it is dropped by one call.
    let mut source = Box::new(alloc, None)?;
    for row in text.lines() {
        write!(out, "{row}\n")?;
        if !row.starts_with("//") {
            push_row(alloc, &mut out, &mut source, row)?;
        }
        write!(out, "\n")?;
    }
    Ok(out)
}
