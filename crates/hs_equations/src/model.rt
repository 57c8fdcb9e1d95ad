//! Values that rows may be true at, variable by variable. Nothing is claimed of them: they are tried.

use crate::fourier::Tower;
use crate::halt::Halt;
use crate::row::{Kind, Row, Solved};
use hs_cooper_forms::coefficient;
use hs_pure::{Lin, Valuation, Var};
use sqlite_items::Items;
use std::alloc::Global;
use std::cmp::{max, min};

/// What a row asks of one more variable: of its coefficient times the value, plus the rest.
#[derive(Clone, Copy, Debug)]
struct Demand {
    kind: Kind,
    coefficient: i128,
    rest: i128,
}

// How many values of a variable are tried.
const TRIES: u32 = 300;

fn value_of(values: &[(Var, i128)], x: Var) -> Option<i128> {
    for pair in values {
        if pair.0 == x {
            return Some(pair.1);
        }
    }
    None
}

fn value_or(values: &[(Var, i128)], x: Var, other: Option<i128>) -> Option<i128> {
    match value_of(values, x) {
        Some(value) => Some(value),
        None => other,
    }
}

// The value of a sum without its term of `x`, where the other variables have values. One without counts as
// `other`.
fn rest_of(a: &Lin, x: Var, values: &[(Var, i128)], other: Option<i128>) -> Option<i128> {
    let mut total = a.constant;
    for t in a.terms.as_slice() {
        if t.0 != x {
            let Some(value) = value_or(values, t.0, other) else {
                return None;
            };
            let Some(product) = t.1.checked_mul(value) else {
                return None;
            };
            let Some(sum) = total.checked_add(product) else {
                return None;
            };
            total = sum;
        }
    }
    Some(total)
}

// What the rows ask of `x` whose other variables have values.
fn demands(
    alloc: Global,
    rows: &[Row],
    x: Var,
    values: &[(Var, i128)],
) -> Result<Items<Demand>, Halt> {
    let mut all = Items::new(alloc);
    for row in rows {
        let coefficient = coefficient(&row.sum, x);
        if coefficient != 0 {
            if let Some(rest) = rest_of(&row.sum, x, values, None) {
                all.push(Demand {
                    kind: row.kind,
                    coefficient,
                    rest,
                })?;
            }
        }
    }
    Ok(all)
}

// Whether a value meets a demand.
fn meets(demand: &Demand, value: i128) -> bool {
    let Some(product) = demand.coefficient.checked_mul(value) else {
        return false;
    };
    match product.checked_add(demand.rest) {
        Some(sum) => demand.kind.says(sum),
        None => false,
    }
}

fn meets_all(demands: &[Demand], value: i128) -> bool {
    for demand in demands {
        if !meets(demand, value) {
            return false;
        }
    }
    true
}

// The least value that a demand allows, or that given.
fn lower(demand: &Demand, least: i128) -> i128 {
    let Some(quotient) = demand.rest.checked_div_euclid(demand.coefficient) else {
        return least;
    };
    match quotient.checked_neg() {
        Some(bound) if demand.kind != Kind::Apart && demand.coefficient > 0 => max(least, bound),
        _ => least,
    }
}

// The greatest value that a demand allows, or that given.
fn upper(demand: &Demand, greatest: i128) -> i128 {
    let Some(size) = demand.coefficient.checked_neg() else {
        return greatest;
    };
    match demand.rest.checked_div_euclid(size) {
        Some(bound) if demand.kind != Kind::Apart && demand.coefficient < 0 => min(greatest, bound),
        _ => greatest,
    }
}

// The value nearest to 0 that is tried first.
fn first_value(demands: &[Demand]) -> i128 {
    let mut least = i128::MIN;
    let mut greatest = i128::MAX;
    for demand in demands {
        least = lower(demand, least);
        greatest = upper(demand, greatest);
    }
    min(max(0, least), greatest)
}

// A value that meets all demands: the first one, or one near.
fn found_value(demands: &[Demand]) -> Option<i128> {
    let first = first_value(demands);
    let mut up = first;
    let mut down = first;
    for _ in 0..TRIES {
        if meets_all(demands, up) {
            return Some(up);
        }
        if meets_all(demands, down) {
            return Some(down);
        }
        up = up.saturating_add(1);
        down = down.saturating_sub(1);
    }
    None
}

fn is_among(order: &[Var], x: Var) -> bool {
    for y in order {
        if *y == x {
            return true;
        }
    }
    false
}

// The variables of the rows that are not in the list, with 0.
fn other_values(alloc: Global, rows: &[Row], order: &[Var]) -> Result<Items<(Var, i128)>, Halt> {
    let mut values = Items::new(alloc);
    for row in rows {
        for t in row.sum.terms.as_slice() {
            if !is_among(order, t.0) && value_of(values.as_slice(), t.0).is_none() {
                values.push((t.0, 0))?;
            }
        }
    }
    Ok(values)
}

// Values of the variables that meet the rows, the last variable first, if such are found.
fn free_values(
    alloc: Global,
    rows: &[Row],
    order: &[Var],
) -> Result<Option<Items<(Var, i128)>>, Halt> {
    let mut values = other_values(alloc, rows, order)?;
    for x in order.iter().rev() {
        let demands = demands(alloc, rows, *x, values.as_slice())?;
        match found_value(demands.as_slice()) {
            Some(value) => values.push((*x, value))?,
            None => return Ok(None),
        }
    }
    Ok(Some(values))
}

// The value of a pivot.
fn pivot_value(e: &Solved, values: &[(Var, i128)]) -> Option<i128> {
    match rest_of(&e.sum, e.pivot, values, Some(0)) {
        Some(rest) => rest.checked_neg(),
        None => None,
    }
}

// Values of all variables of the rows, if such are found.
pub(crate) fn model(
    alloc: Global,
    tower: &Tower,
    solved: &[Solved],
) -> Result<Option<Valuation>, Halt> {
    let Some(free) = free_values(alloc, tower.done.as_slice(), tower.order.as_slice())? else {
        return Ok(None);
    };
    let mut numbers = Items::from_slice(alloc, free.as_slice())?;
    for e in solved {
        match pivot_value(e, free.as_slice()) {
            Some(value) => numbers.push((e.pivot, value))?,
            None => return Ok(None),
        }
    }
    let bags = Items::new(alloc);
    Ok(Some(Valuation { numbers, bags }))
}
