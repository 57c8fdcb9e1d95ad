//! Formulas that are written by numbers.

use crate::NoRow;
use hs_heap::{Defs, Disjunct};
use hs_lex::lex;
use hs_norm_formula::numbered;
use hs_pure::Pure;
use hs_read_pure::read_formula;
use sqlite_items::Items;
use std::alloc::Global;

// The most bytes of a formula.
const MOST_BYTES: usize = 1 << 20;

/// What stands before and after the first mark.
pub fn cut<'a>(text: &'a str, mark: &'static str) -> Result<(&'a str, &'a str), NoRow> {
    match text.split_once(mark) {
        Some(parts) => Ok(parts),
        None => Err(NoRow),
    }
}

/// The last disjunct of a formula over no definitions.
pub fn case(alloc: Global, text: &str) -> Result<Disjunct, NoRow> {
    if text.len() > MOST_BYTES {
        return Err(NoRow);
    }
    let Ok(tokens) = lex(alloc, text.as_bytes(), u128::MAX) else {
        return Err(NoRow);
    };
    let Ok(tree) = read_formula(alloc, &tokens, text) else {
        return Err(NoRow);
    };
    let defs = Defs {
        nodes: Items::new(alloc),
        preds: Items::new(alloc),
        lemmas: Items::new(alloc),
    };
    let Ok(mut formula) = numbered(alloc, &defs, &tree) else {
        return Err(NoRow);
    };
    match formula.cases.pop() {
        Some(case) => Ok(case),
        None => Err(NoRow),
    }
}

/// The conjunction of the members. One stands for itself.
pub fn conjunction(mut members: Items<Pure>) -> Pure {
    if members.len() == 1 {
        if let Some(member) = members.pop() {
            return member;
        }
    }
    Pure::And(members)
}

/// The conjunction of the conjuncts of the last disjunct.
pub fn formula(alloc: Global, text: &str) -> Result<Box<Pure>, NoRow> {
    let case = case(alloc, text)?;
    Ok(Box::new(alloc, conjunction(case.pure))?)
}
