//! Rows and their answers.

ghost use Rattle.std.specs.Prelude.{◌≤◌, ◌^◌, IfOk};

use crate::answers::{push_counts, push_plain, push_reduced, push_under};
use hs_tests_formulas::{NoRow, cut, formula};
use std::alloc::Global;
use std::str;

// The most comparisons of a row.
fn atoms(text: &str) -> Result<u64, NoRow>
    ensures { IfOk result (λ n. n ≤ 2 ^ 30) }
{
    match text.parse::<u64>() {
        Ok(atoms) if atoms <= 1 << 30 => Ok(atoms),
        _ => Err(NoRow),
    }
}

fn push_reduction(alloc: Global, out: &mut String, row: &str) -> Result<(), NoRow> {
    push_reduced(alloc, out, &*formula(alloc, row)?)
}

fn push_numbers(alloc: Global, out: &mut String, row: &str) -> Result<(), NoRow> {
    push_counts(alloc, out, &*formula(alloc, row)?)
}

fn push_plainly(alloc: Global, out: &mut String, row: &str) -> Result<(), NoRow> {
    let (budget, f) = cut(row, " ")?;
    let atoms = atoms(budget)?;
    push_plain(alloc, out, &*formula(alloc, f)?, atoms)
}

fn push_bound(alloc: Global, out: &mut String, row: &str) -> Result<(), NoRow> {
    let (word, f) = cut(row, " ")?;
    push_under(alloc, out, word, &*formula(alloc, f)?)
}

fn push_row(alloc: Global, out: &mut String, row: &str) -> Result<(), NoRow> {
    let (call, rest) = cut(row, " ")?;
    match call {
        "reduce" => push_reduction(alloc, out, rest),
        "counts" => push_numbers(alloc, out, rest),
        "plain" => push_plainly(alloc, out, rest),
        "under" => push_bound(alloc, out, rest),
        _ => Err(NoRow),
    }
}

// A row that is none says so.
fn push_answer(alloc: Global, out: &mut String, row: &str) -> Result<(), NoRow> {
    match push_row(alloc, out, row) {
        Ok(()) => Ok(()),
        Err(NoRow) => {
            write!(out, "no row")?;
            Ok(())
        }
    }
}

/// Each row, with its answer.
pub fn table(alloc: Global, bytes: &[u8]) -> Result<String, NoRow> {
    let mut out = String::new(alloc);
    let Ok(text) = str::from_utf8(bytes) else {
        return Err(NoRow);
    };
    for row in text.lines() {
        write!(out, "{row}\n")?;
        if !row.starts_with("//") {
            write!(out, "  ")?;
            push_answer(alloc, &mut out, row)?;
            write!(out, "\n")?;
        }
        write!(out, "\n")?;
    }
    Ok(out)
}
