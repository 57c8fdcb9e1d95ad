//! Numbers and terms of a line.

use hs_pure::{Lin, Pure};
use hs_tests_formulas::{NoRow, formula};
use sqlite_items::Items;
use std::alloc::Global;

pub fn small(word: &str) -> Result<u32, NoRow> {
    match word.parse::<u32>() {
        Ok(number) => Ok(number),
        Err(_) => Err(NoRow),
    }
}

/// Numbers with a blank between them.
pub fn numbers(alloc: Global, text: &str) -> Result<Items<u32>, NoRow> {
    let mut numbers = Items::new(alloc);
    for word in text.split(" ") {
        numbers.push(small(word)?)?;
    }
    Ok(numbers)
}

/// A slot, or none for a dash.
pub fn slot(word: &str) -> Result<Option<u32>, NoRow> {
    if word == "-" {
        return Ok(None);
    }
    Ok(Some(small(word)?))
}

// The right side of an equality.
fn right(alloc: Global, p: &Pure) -> Result<Lin, NoRow> {
    if let Pure::Eq(_, term) = p {
        return Ok(term.copy(alloc)?);
    }
    Err(NoRow)
}

/// A sum of slots.
pub fn term(alloc: Global, text: &str) -> Result<Lin, NoRow> {
    let equality = format!(in alloc; "0 = {text}")?;
    right(alloc, &*formula(alloc, &equality)?)
}

/// What a branch asks.
pub fn condition(alloc: Global, text: &str) -> Result<Pure, NoRow> {
    Ok(formula(alloc, text)?.copy(alloc)?)
}
