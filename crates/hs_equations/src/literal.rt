//! Rows of comparisons.

ghost use Rattle.std.specs.Prelude.{◌≡◌, ℤ, pos, ◌≤ℤ◌, ◌<ℤ◌, int_lt, IfOk, IfSome};
ghost use Rattle.std.specs.Ordering.{int_eq};
ghost use Rattle.hs_pure.specs.Stack.{Stack};
ghost use Rattle.hs_pure.specs.Truth.{value};
ghost use Rattle.hs_elimination.specs.Decided.{is_divisor};
ghost use Rattle.hs_equations.specs.Rows.{IsMet};
ghost use Rattle.hs_equations.specs.Claims.{truth_at};

use crate::halt::Halt;
use crate::linear::{combined, shifted};
use crate::row::{Kind, Row};
use hs_pure::{Lin, Pure};
use sqlite_items::Items;
use std::alloc::Global;

// That the sums are equal, or that they are not.
fn equation(alloc: Global, a: &Lin, b: &Lin, expected: bool) -> Result<Row, Halt>
    ensures { IfOk result (λ r. (s : Stack) → int_eq (value s a.now) (value s b.now) ≡ expected → IsMet s r) }
{
    let sum = combined(alloc, -1, b, a)?;
    if expected {
        Ok(Row {
            kind: Kind::Zero,
            sum,
        })
    } else {
        Ok(Row {
            kind: Kind::Apart,
            sum,
        })
    }
}

// That the first sum is less.
fn below(alloc: Global, a: &Lin, b: &Lin) -> Result<Row, Halt>
    ensures { IfOk result (λ r. (s : Stack) → value s a.now <ℤ value s b.now → IsMet s r) }
{
    let difference = combined(alloc, -1, a, b)?;
    let sum = shifted(alloc, &difference, -1)?;
    Ok(Row {
        kind: Kind::Least,
        sum,
    })
}

// That the first sum is at most the second.
fn at_most(alloc: Global, a: &Lin, b: &Lin) -> Result<Row, Halt>
    ensures { IfOk result (λ r. (s : Stack) → value s a.now ≤ℤ value s b.now → IsMet s r) }
{
    let sum = combined(alloc, -1, a, b)?;
    Ok(Row {
        kind: Kind::Least,
        sum,
    })
}

// That the first sum is less, or that it is not.
fn order(alloc: Global, a: &Lin, b: &Lin, expected: bool) -> Result<Row, Halt>
    ensures { IfOk result (λ r. (s : Stack) → int_lt (value s a.now) (value s b.now) ≡ expected → IsMet s r) }
{
    if expected {
        below(alloc, a, b)
    } else {
        at_most(alloc, b, a)
    }
}

// That 1 divides a number, or that it does not.
fn divided_by_one(alloc: Global, expected: bool) -> Row
    ensures { (s : Stack) (z : ℤ) → is_divisor (pos 1) z ≡ expected → IsMet s result }
{
    let constant = if expected { 0 } else { 1 };
    Row {
        kind: Kind::Zero,
        sum: Lin {
            terms: Items::new(alloc),
            constant,
        },
    }
}

// What the row of a comparison says, where the formula is one.
pub(crate) fn comparison(alloc: Global, p: &Pure, expected: bool) -> Result<Option<Row>, Halt>
    ensures { IfOk result (λ o. IfSome o (λ r. (s : Stack) → truth_at s p.now ≡ expected → IsMet s r)) }
{
    match p {
        Pure::Eq(a, b) => Ok(Some(equation(alloc, a, b, expected)?)),
        Pure::Lt(a, b) => Ok(Some(order(alloc, a, b, expected)?)),
        Pure::Le(a, b) => Ok(Some(order(alloc, b, a, !expected)?)),
        Pure::Divides(d, _) if *d == 1 => Ok(Some(divided_by_one(alloc, expected))),
        _ => Ok(None),
    }
}
