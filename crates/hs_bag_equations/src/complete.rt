//! Values of the variables that bags stand for.

use crate::place::InPlace;
use hs_cooper_forms::Refusal;
use hs_pure::{Bag, Lin, NoMemory, Valuation, Var};
use sqlite_items::Items;
use std::alloc::Global;
use std::cmp::{max, min};

// How the counts of two bags are joined.
#[derive(Clone, Copy)]
enum Joining {
    Sum,
    Lesser,
    Difference,
}

impl Joining {
    // The joined count, if it fits.
    fn count(self, a: i128, b: i128) -> Option<i128> {
        match self {
            Joining::Sum => a.checked_add(b),
            Joining::Lesser => Some(min(a, b)),
            Joining::Difference => Some(max(a.saturating_sub(b), 0)),
        }
    }
}

fn number(v: &Valuation, u: Var) -> i128 {
    for pair in v.numbers.as_slice() {
        if pair.0 == u {
            return pair.1;
        }
    }
    0
}

// The value of the sum, if each number that is met fits.
fn value(a: &Lin, v: &Valuation) -> Option<i128> {
    let mut total: i128 = a.constant;
    for t in a.terms.as_slice() {
        total = total.checked_add(t.1.checked_mul(number(v, t.0))?)?;
    }
    Some(total)
}

fn listed<'a>(v: &'a Valuation, u: Var) -> &'a [(i128, i128)] {
    for pair in v.bags.as_slice() {
        if pair.0 == u {
            return pair.1.as_slice();
        }
    }
    &[]
}

// Adds an element after the others, as often as it is joined of two counts.
fn push_joined(
    elements: &mut Items<(i128, i128)>,
    how: Joining,
    x: i128,
    a: i128,
    b: i128,
) -> Result<(), Refusal> {
    let Some(count) = how.count(a, b) else {
        return Err(Refusal::Wide);
    };
    if count > 0 {
        elements.push((x, count))?;
    }
    Ok(())
}

// The elements of two bags, joined, by rising element.
fn joined(
    alloc: Global,
    how: Joining,
    a: &[(i128, i128)],
    b: &[(i128, i128)],
) -> Result<Items<(i128, i128)>, Refusal> {
    let mut elements = Items::new(alloc);
    let mut i = 0;
    let mut j = 0;
    'joining: while i < a.len() && j < b.len() {
        let (x, m) = a[i];
        let (y, n) = b[j];
        if x < y {
            push_joined(&mut elements, how, x, m, 0)?;
            i += 1;
        } else if y < x {
            push_joined(&mut elements, how, y, 0, n)?;
            j += 1;
        } else {
            push_joined(&mut elements, how, x, m, n)?;
            i += 1;
            j += 1;
        }
    }
    for (x, m) in &a[i..] {
        push_joined(&mut elements, how, *x, *m, 0)?;
    }
    for (y, n) in &b[j..] {
        push_joined(&mut elements, how, *y, 0, *n)?;
    }
    Ok(elements)
}

fn single(alloc: Global, a: &Lin, v: &Valuation) -> Result<Items<(i128, i128)>, Refusal> {
    let Some(x) = value(a, v) else {
        return Err(Refusal::Wide);
    };
    let mut elements = Items::new(alloc);
    elements.push((x, 1))?;
    Ok(elements)
}

// The elements of a bag with their counts, by rising element.
fn elements(alloc: Global, b: &Bag, v: &Valuation) -> Result<Items<(i128, i128)>, Refusal> {
    match b {
        Bag::Empty => Ok(Items::new(alloc)),
        Bag::Name(u) => Ok(Items::from_slice(alloc, listed(v, *u))?),
        Bag::One(a) => single(alloc, a, v),
        Bag::Union(a, b) => {
            let a = elements(alloc, a.get(), v)?;
            let b = elements(alloc, b.get(), v)?;
            joined(alloc, Joining::Sum, a.as_slice(), b.as_slice())
        }
        Bag::Inter(a, b) => {
            let a = elements(alloc, a.get(), v)?;
            let b = elements(alloc, b.get(), v)?;
            joined(alloc, Joining::Lesser, a.as_slice(), b.as_slice())
        }
        Bag::Diff(a, b) => {
            let a = elements(alloc, a.get(), v)?;
            let b = elements(alloc, b.get(), v)?;
            joined(alloc, Joining::Difference, a.as_slice(), b.as_slice())
        }
    }
}

// The values, with what the variables that bags stand for are worth before them.
fn with_bags(alloc: Global, es: &[(Var, Bag)], v: &Valuation) -> Result<Valuation, Refusal> {
    let mut bags = Items::new(alloc);
    for e in es {
        let elements = elements(alloc, &e.1, v)?;
        bags.push((e.0, elements))?;
    }
    let values = v.copy(alloc)?;
    bags.append(values.bags)?;
    Ok(Valuation {
        numbers: values.numbers,
        bags,
    })
}

/// The values of the formula with those of the variables that were replaced. Nothing is said of them: they are to be
/// tried on the formula that equations were put in place in. None comes only where a number passes 128 bits.
pub fn completed(
    alloc: Global,
    placed: &InPlace,
    values: &Valuation,
) -> Result<Option<Valuation>, NoMemory> {
    match with_bags(alloc, placed.bags.as_slice(), values) {
        Ok(v) => Ok(Some(v)),
        Err(Refusal::Wide) => Ok(None),
        Err(Refusal::Memory) => Err(NoMemory),
    }
}
