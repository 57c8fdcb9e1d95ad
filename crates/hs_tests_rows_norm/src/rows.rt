//! Rows and what they are.

use crate::faults::{push_lex_error, push_norm_error, push_read_error};
use crate::forms::{push_named, push_numbered, push_occurrences, push_resolved};
use hs_heap::{Defs, Formula};
use hs_lex::{Token, lex};
use hs_norm::{Resolved, normal, numbered};
use hs_pure::NoMemory;
use hs_read::{FormulaTree, PureTree, Source, read, read_formula, read_pure};
use sqlite_items::Items;
use std::alloc::Global;
use std::str;

// The most bytes of a row.
const MOST_BYTES: usize = 1 << 20;

fn source(alloc: Global, out: &mut String, row: &str) -> Result<Option<Source>, NoMemory> {
    if row.len() > MOST_BYTES {
        return Ok(None);
    }
    match lex(alloc, row.as_bytes(), u128::MAX) {
        Ok(tokens) => match read(alloc, &tokens, row) {
            Ok(source) => return Ok(Some(source)),
            Err(error) => push_read_error(out, &error)?,
        },
        Err(error) => push_lex_error(out, &error)?,
    }
    Ok(None)
}

fn tree(alloc: Global, out: &mut String, row: &str) -> Result<Option<FormulaTree>, NoMemory> {
    if row.len() > MOST_BYTES {
        return Ok(None);
    }
    match lex(alloc, row.as_bytes(), u128::MAX) {
        Ok(tokens) => match read_formula(alloc, &tokens, row) {
            Ok(tree) => return Ok(Some(tree)),
            Err(error) => push_read_error(out, &error)?,
        },
        Err(error) => push_lex_error(out, &error)?,
    }
    Ok(None)
}

// How many items each of the cases of a pure formula has.
fn push_pure_row(alloc: Global, out: &mut String, row: &str) -> Result<(), NoMemory> {
    if row.len() > MOST_BYTES {
        return Ok(());
    }
    let Ok(tokens) = lex(alloc, row.as_bytes(), u128::MAX) else {
        return Ok(());
    };
    match read_pure(alloc, &tokens, row) {
        Ok(tree) => push_counts(out, &tree),
        Err(error) => push_read_error(out, &error),
    }
}

fn push_counts(out: &mut String, tree: &PureTree) -> Result<(), NoMemory> {
    write!(out, "  items")?;
    for case in tree.cases.as_slice() {
        let count = case.len();
        write!(out, " {count}")?;
    }
    write!(out, "\n")?;
    Ok(())
}

// The tokens of a row, each with its place.
fn push_token_row(alloc: Global, out: &mut String, row: &str) -> Result<(), NoMemory> {
    if row.len() > MOST_BYTES {
        return Ok(());
    }
    match lex(alloc, row.as_bytes(), 99) {
        Ok(tokens) => push_tokens(out, &tokens),
        Err(error) => push_lex_error(out, &error),
    }
}

fn push_tokens(out: &mut String, tokens: &[Token]) -> Result<(), NoMemory> {
    for token in tokens {
        let Token { kind, at, end } = *token;
        write!(out, "  {at} to {end}: {kind:?}\n")?;
    }
    Ok(())
}

// The copy of the normal form of a source that has one.
fn resolved(alloc: Global, out: &mut String, row: &str) -> Result<Option<Resolved>, NoMemory> {
    let Some(source) = source(alloc, out, row)? else {
        return Ok(None);
    };
    if source.items.len() > MOST_BYTES {
        return Ok(None);
    }
    match normal(alloc, &source) {
        Ok(resolved) => Ok(Some(resolved.copy(alloc)?)),
        Err(error) => {
            push_norm_error(out, &error)?;
            Ok(None)
        }
    }
}

// The formula that is written by numbers.
fn formula(
    alloc: Global,
    out: &mut String,
    defs: &Defs,
    row: &str,
) -> Result<Option<Formula>, NoMemory> {
    let Some(tree) = tree(alloc, out, row)? else {
        return Ok(None);
    };
    match numbered(alloc, defs, &tree) {
        Ok(f) => Ok(Some(f)),
        Err(error) => {
            push_norm_error(out, &error)?;
            Ok(None)
        }
    }
}

fn push_formula_row(
    alloc: Global,
    out: &mut String,
    defs: &Defs,
    row: &str,
) -> Result<(), NoMemory> {
    match formula(alloc, out, defs, row)? {
        Some(f) => push_numbered(alloc, out, &f, defs),
        None => Ok(()),
    }
}

fn push_occurrence_row(
    alloc: Global,
    out: &mut String,
    defs: &Defs,
    row: &str,
) -> Result<(), NoMemory> {
    match formula(alloc, out, defs, row)? {
        Some(f) => push_occurrences(out, &f),
        None => Ok(()),
    }
}

fn push_named_row(alloc: Global, out: &mut String, row: &str) -> Result<(), NoMemory> {
    match resolved(alloc, out, row)? {
        Some(resolved) => push_named(alloc, out, &resolved),
        None => Ok(()),
    }
}

fn no_defs(alloc: Global) -> Defs {
    Defs {
        nodes: Items::new(alloc),
        preds: Items::new(alloc),
        lemmas: Items::new(alloc),
    }
}

// A source, which replaces the definitions by its own.
fn push_source_row(
    alloc: Global,
    out: &mut String,
    defs: &mut Defs,
    row: &str,
) -> Result<(), NoMemory> {
    if let Some(resolved) = resolved(alloc, out, row)? {
        push_resolved(alloc, out, &resolved)?;
        *defs = resolved.defs;
    }
    Ok(())
}

fn push_row(alloc: Global, out: &mut String, defs: &mut Defs, row: &str) -> Result<(), NoMemory> {
    match row.split_once(" ") {
        Some(("%", text)) => push_token_row(alloc, out, text),
        Some(("~", text)) => push_pure_row(alloc, out, text),
        Some(("=", text)) => push_formula_row(alloc, out, defs, text),
        Some(("?", text)) => push_occurrence_row(alloc, out, defs, text),
        Some(("@", text)) => push_named_row(alloc, out, text),
        _ => push_source_row(alloc, out, defs, row),
    }
}

/// Each row, with what it is.
pub fn table(alloc: Global, bytes: &[u8]) -> Result<String, NoMemory> {
    let mut out = String::new(alloc);
    let Ok(text) = str::from_utf8(bytes) else {
        return Ok(out);
    };
    let mut defs = no_defs(alloc);
    for row in text.lines() {
        write!(out, "{row}\n")?;
        if !row.starts_with("//") {
            push_row(alloc, &mut out, &mut defs, row)?;
        }
        write!(out, "\n")?;
    }
    Ok(out)
}
