//! Words, numbers, sources and formulas of rows.

use hs_heap::{Atom, Defs, Formula};
use hs_lex::lex;
use hs_norm::{Resolved, normal, numbered};
use hs_pure::{NoMemory, Pure, Var};
use hs_read::{read, read_formula};
use sqlite_items::Items;
use std::alloc::{AllocError, AllocFailed, Global};

// The most bytes of a text.
const MOST_BYTES: usize = 1 << 20;

/// A row is not of the form, or memory ran out.
#[derive(Clone, Copy, Debug)]
pub struct NoRow;

impl From<AllocError> for NoRow {
    fn from(_: AllocError) -> NoRow {
        NoRow
    }
}

impl<T: Drop> From<AllocFailed<T>> for NoRow {
    fn from(_: AllocFailed<T>) -> NoRow {
        NoRow
    }
}

impl From<NoMemory> for NoRow {
    fn from(_: NoMemory) -> NoRow {
        NoRow
    }
}

/// What stands before and after the first mark.
pub fn cut<'a>(text: &'a str, mark: &'static str) -> Result<(&'a str, &'a str), NoRow> {
    match text.split_once(mark) {
        Some(parts) => Ok(parts),
        None => Err(NoRow),
    }
}

pub fn natural(text: &str) -> Result<u32, NoRow> {
    match text.parse::<u32>() {
        Ok(number) => Ok(number),
        Err(_) => Err(NoRow),
    }
}

/// The normal form of a source.
pub fn resolved(alloc: Global, row: &str) -> Result<Resolved, NoRow> {
    if row.len() > MOST_BYTES {
        return Err(NoRow);
    }
    let Ok(tokens) = lex(alloc, row.as_bytes(), u128::MAX) else {
        return Err(NoRow);
    };
    let Ok(source) = read(alloc, &tokens, row) else {
        return Err(NoRow);
    };
    if source.items.len() > MOST_BYTES {
        return Err(NoRow);
    }
    match normal(alloc, &source) {
        Ok(resolved) => Ok(resolved),
        Err(_) => Err(NoRow),
    }
}

/// The formula without disjuncts.
pub fn no_case(alloc: Global) -> Formula {
    Formula {
        cases: Items::new(alloc),
    }
}

/// A formula that is written by numbers, or `none`.
pub fn formula(alloc: Global, defs: &Defs, text: &str) -> Result<Formula, NoRow> {
    if text == "none" {
        return Ok(no_case(alloc));
    }
    if text.len() > MOST_BYTES {
        return Err(NoRow);
    }
    let Ok(tokens) = lex(alloc, text.as_bytes(), u128::MAX) else {
        return Err(NoRow);
    };
    let Ok(tree) = read_formula(alloc, &tokens, text) else {
        return Err(NoRow);
    };
    match numbered(alloc, defs, &tree) {
        Ok(formula) => Ok(formula),
        Err(_) => Err(NoRow),
    }
}

/// The atoms of the last disjunct.
pub fn atoms(alloc: Global, defs: &Defs, text: &str) -> Result<Items<Atom>, NoRow> {
    match formula(alloc, defs, text)?.cases.pop() {
        Some(case) => Ok(case.atoms),
        None => Err(NoRow),
    }
}

/// The conjunction of the conjuncts of the last disjunct. One stands for itself.
pub fn pure(alloc: Global, defs: &Defs, text: &str) -> Result<Pure, NoRow> {
    match formula(alloc, defs, text)?.cases.pop() {
        Some(case) => Ok(conjunction(case.pure)),
        None => Err(NoRow),
    }
}

fn conjunction(mut ps: Items<Pure>) -> Pure {
    if ps.len() == 1 {
        if let Some(p) = ps.pop() {
            return p;
        }
    }
    Pure::And(ps)
}

/// The variable `vK`, or `VK` for a bag.
pub fn variable(text: &str) -> Result<Var, NoRow> {
    match text.strip_prefix("V") {
        Some(number) => Ok(Var {
            number: natural(number)?,
            bag: true,
        }),
        None => {
            let (_, number) = cut(text, "v")?;
            Ok(Var {
                number: natural(number)?,
                bag: false,
            })
        }
    }
}
