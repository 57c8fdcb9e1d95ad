//! Variables and their values.

use crate::NoRow;
use crate::reading::cut;
use hs_pure::{Valuation, Var};
use sqlite_items::Items;
use std::alloc::Global;

/// An integer of 128 bits.
pub fn number(text: &str) -> Result<i128, NoRow> {
    match text.parse::<i128>() {
        Ok(number) => Ok(number),
        Err(_) => Err(NoRow),
    }
}

/// The variable `vK`, or `VK` for a bag.
pub fn variable(text: &str) -> Result<Var, NoRow> {
    let (bag, digits) = match text.strip_prefix("V") {
        Some(digits) => (true, digits),
        None => (false, cut(text, "v")?.1),
    };
    match digits.parse::<u32>() {
        Ok(number) => Ok(Var { number, bag }),
        Err(_) => Err(NoRow),
    }
}

/// The pairs of `v1=v2 v2=v1`: each variable with the one that stands in its place.
pub fn pairs(alloc: Global, text: &str) -> Result<Items<(Var, Var)>, NoRow> {
    let mut pairs = Items::new(alloc);
    for word in text.split(" ") {
        let (old, new) = cut(word, "=")?;
        pairs.push((variable(old)?, variable(new)?))?;
    }
    Ok(pairs)
}

// The elements of `1:2,5:1`, each with its count.
fn elements(alloc: Global, text: &str) -> Result<Items<(i128, i128)>, NoRow> {
    let mut elements = Items::new(alloc);
    for word in text.split(",") {
        let (element, count) = cut(word, ":")?;
        elements.push((number(element)?, number(count)?))?;
    }
    Ok(elements)
}

// The bag `{}`, or one as `{1:2,5:1}`.
fn bag(alloc: Global, text: &str) -> Result<Items<(i128, i128)>, NoRow> {
    if text == "{}" {
        return Ok(Items::new(alloc));
    }
    let (_, opened) = cut(text, "{")?;
    let (inside, _) = cut(opened, "}")?;
    elements(alloc, inside)
}

/// The values of `v1=3 V2={1:2,5:1}`: a bag has each element once, with its count.
pub fn valuation(alloc: Global, text: &str) -> Result<Valuation, NoRow> {
    let mut values = Valuation {
        numbers: Items::new(alloc),
        bags: Items::new(alloc),
    };
    for word in text.split(" ") {
        let (name, value) = cut(word, "=")?;
        let v = variable(name)?;
        if v.bag {
            values.bags.push((v, bag(alloc, value)?))?;
        } else {
            values.numbers.push((v, number(value)?))?;
        }
    }
    Ok(values)
}
