//! Contradictions between two rows.

ghost use Rattle.std.specs.Prelude.{◌≡◌, ◌+ℤ◌, ◌*ℤ◌, ◌≤ℤ◌, pos, IfOk, IfSome, IsTrue};
ghost use Rattle.std.specs.List.{All};
ghost use Rattle.hs_pure.specs.Stack.{Stack};
ghost use Rattle.hs_pure.specs.Truth.{value};
ghost use Rattle.hs_equations.specs.Rows.{Says, IsMet};

use crate::halt::Halt;
use crate::linear::combined;
use crate::row::{Kind, Row, fixed};
use hs_pure::{Lin, Var};
use std::alloc::Global;

// Whether `k` times the terms of the first list and those of the second cancel out.
pub(crate) fn cancel(k: i128, a: &[(Var, i128)], b: &[(Var, i128)]) -> bool {
    if a.len() != b.len() {
        return false;
    }
    for (t, u) in a.iter().zip(b) {
        if t.0 != u.0 || t.1.checked_mul(k) != u.1.checked_neg() {
            return false;
        }
    }
    true
}

// What `k` times the first sum and the second add up to, where their terms cancel out.
pub(crate) fn cancelled(alloc: Global, k: i128, a: &Lin, b: &Lin) -> Result<Option<i128>, Halt>
    ensures { IfOk result (λ o. IfSome o (λ z. (s : Stack) → k *ℤ value s a.now +ℤ value s b.now ≡ z)) }
{
    if cancel(k, a.terms.as_slice(), b.terms.as_slice()) {
        let sum = combined(alloc, k, a, b)?;
        Ok(fixed(&sum))
    } else {
        Ok(None)
    }
}

// Whether a sum is not as its kind says where another is 0, as it is a number less `k` times that.
fn clash_by(alloc: Global, k: i128, zero: &Lin, kind: Kind, sum: &Lin) -> Result<bool, Halt>
    ensures { IfOk result (λ r. IsTrue r → (s : Stack) → value s zero.now ≡ pos 0 → ¬ (Says kind (value s sum.now))) }
{
    let total = cancelled(alloc, k, zero, sum)?;
    match total {
        Some(z) => Ok(!kind.says(z)),
        None => Ok(false),
    }
}

// Whether a sum is not as its kind says where another is 0.
fn clash_zero(alloc: Global, zero: &Lin, kind: Kind, sum: &Lin) -> Result<bool, Halt>
    ensures { IfOk result (λ r. IsTrue r → (s : Stack) → value s zero.now ≡ pos 0 → ¬ (Says kind (value s sum.now))) }
{
    let found = clash_by(alloc, 1, zero, kind, sum)?;
    if found {
        Ok(true)
    } else {
        clash_by(alloc, -1, zero, kind, sum)
    }
}

// Whether two sums are not both at least 0.
fn clash_least(alloc: Global, a: &Lin, b: &Lin) -> Result<bool, Halt>
    ensures { IfOk result (λ r. IsTrue r → (s : Stack) → pos 0 ≤ℤ value s a.now → ¬ (pos 0 ≤ℤ value s b.now)) }
{
    let total = cancelled(alloc, 1, a, b)?;
    match total {
        Some(z) => Ok(z < 0),
        None => Ok(false),
    }
}

// Whether two rows are seen not to be both true.
pub(crate) fn clash(alloc: Global, a: &Row, b: &Row) -> Result<bool, Halt>
    ensures { IfOk result (λ r. IsTrue r → (s : Stack) → IsMet s a.now → ¬ (IsMet s b.now)) }
{
    match a.kind {
        Kind::Zero => clash_zero(alloc, &a.sum, b.kind, &b.sum),
        Kind::Least => clash_with_least(alloc, &a.sum, b),
        Kind::Apart => clash_with_apart(alloc, &a.sum, b),
    }
}

fn clash_with_least(alloc: Global, a: &Lin, b: &Row) -> Result<bool, Halt>
    ensures { IfOk result (λ r. IsTrue r → (s : Stack) → pos 0 ≤ℤ value s a.now → ¬ (IsMet s b.now)) }
{
    match b.kind {
        Kind::Zero => clash_zero(alloc, &b.sum, Kind::Least, a),
        Kind::Least => clash_least(alloc, a, &b.sum),
        Kind::Apart => Ok(false),
    }
}

fn clash_with_apart(alloc: Global, a: &Lin, b: &Row) -> Result<bool, Halt>
    ensures { IfOk result (λ r. IsTrue r → (s : Stack) → (¬ (value s a.now ≡ pos 0)) → ¬ (IsMet s b.now)) }
{
    match b.kind {
        Kind::Zero => clash_zero(alloc, &b.sum, Kind::Apart, a),
        Kind::Least => Ok(false),
        Kind::Apart => Ok(false),
    }
}

// Whether some row of the list and the row are seen not to be both true.
pub(crate) fn clash_any(alloc: Global, rows: &[Row], row: &Row) -> Result<bool, Halt>
    ensures { IfOk result (λ r. IsTrue r → (s : Stack) → All (IsMet s) rows.now → ¬ (IsMet s row.now)) }
{
    for other in rows {
        let found = clash(alloc, other, row)?;
        if found {
            return Ok(true);
        }
    }
    Ok(false)
}
