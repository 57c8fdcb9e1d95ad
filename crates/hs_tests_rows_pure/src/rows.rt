//! Rows and their answers.

use crate::answers::{
    push_copy, push_divides, push_eval, push_plain, push_plain_inside, push_renamed,
};
use hs_heap::HeapNode;
use hs_tests_formulas::{NoRow, case, cut, formula, number, pairs, valuation};
use sqlite_items::Items;
use std::alloc::Global;
use std::str;

fn push_value(alloc: Global, out: &mut String, row: &str) -> Result<(), NoRow> {
    let (f, at) = cut(row, " at ")?;
    let v = valuation(alloc, at)?;
    push_eval(out, &*formula(alloc, f)?, &v)
}

fn push_divisor(alloc: Global, out: &mut String, row: &str) -> Result<(), NoRow> {
    let (d, n) = cut(row, " at ")?;
    push_divides(alloc, out, number(d)?, number(n)?)
}

fn push_renaming(alloc: Global, out: &mut String, row: &str) -> Result<(), NoRow> {
    let (f, by) = cut(row, " by ")?;
    let map = pairs(alloc, by)?;
    let case = case(alloc, f)?;
    push_renamed(alloc, out, &case, map.as_slice())
}

fn push_plainness(alloc: Global, out: &mut String, row: &str) -> Result<(), NoRow> {
    push_plain(out, &*formula(alloc, row)?)
}

fn push_inside(alloc: Global, out: &mut String, row: &str) -> Result<(), NoRow> {
    let (word, f) = cut(row, " ")?;
    push_plain_inside(alloc, out, word, &*formula(alloc, f)?)
}

fn push_node(alloc: Global, out: &mut String, row: &str) -> Result<(), NoRow> {
    let (of, rest) = cut(row, " ")?;
    let Ok(of) = of.parse::<u32>() else {
        return Err(NoRow);
    };
    let mut values = Items::new(alloc);
    for value in rest.split(" ") {
        values.push(number(value)?)?;
    }
    push_copy(alloc, out, &HeapNode { of, values })
}

fn push_row(alloc: Global, out: &mut String, row: &str) -> Result<(), NoRow> {
    let (call, rest) = cut(row, " ")?;
    match call {
        "eval" => push_value(alloc, out, rest),
        "divides" => push_divisor(alloc, out, rest),
        "rename" => push_renaming(alloc, out, rest),
        "plain" => push_plainness(alloc, out, rest),
        "inside" => push_inside(alloc, out, rest),
        "node" => push_node(alloc, out, rest),
        _ => Err(NoRow),
    }
}

// A row that is none says so.
fn push_answer(alloc: Global, out: &mut String, row: &str) -> Result<(), NoRow> {
    match push_row(alloc, out, row) {
        Ok(()) => Ok(()),
        Err(NoRow) => {
            write!(out, "no row")?;
            Ok(())
        }
    }
}

/// Each row, with its answer.
pub fn table(alloc: Global, bytes: &[u8]) -> Result<String, NoRow> {
    let mut out = String::new(alloc);
    let Ok(text) = str::from_utf8(bytes) else {
        return Err(NoRow);
    };
    for row in text.lines() {
        write!(out, "{row}\n")?;
        if !row.starts_with("//") {
            write!(out, "  ")?;
            push_answer(alloc, &mut out, row)?;
            write!(out, "\n")?;
        }
        write!(out, "\n")?;
    }
    Ok(out)
}
