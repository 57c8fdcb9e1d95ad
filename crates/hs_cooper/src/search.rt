//! A value of a variable that makes a formula true.

ghost use Rattle.std.specs.Prelude.{◌≡◌, ◌≤◌, ◌<◌, ◌^◌, ◌⊎◌, ℤ, None, pos, IfOk, IfSome, IsErrOf, IsTrue, int_div};
ghost use Rattle.hs_pure.specs.Assertion.{assertion_of};
ghost use Rattle.hs_pure.specs.Eval.{stack_of, NumbersFit};
ghost use Rattle.hs_pure.specs.Stack.{with_value, number_value};
ghost use Rattle.hs_pure.specs.Sums.{IsOrdered};
ghost use Rattle.hs_pure.specs.Truth.{TrueAt};
ghost use Rattle.hs_elimination.specs.Elimination.{PassesAtoms, PassesBits};
ghost use Rattle.hs_elimination.specs.Form.{assertion, IsWide};
ghost use Rattle.hs_elimination.specs.Linear.{place};
ghost use Rattle.hs_elimination.specs.Normal.{is_simple};
ghost use Rattle.hs_elimination.specs.Decided.{evaluates_to};
ghost use Rattle.hs_elimination.specs.Witness.{near_at, first_near_bound, first_near, low_at, first_low, first_value, plain_value, IsWideLow, PassesValues};
ghost use Rattle.hs_cooper_forms.specs.Reading.{form_of};
ghost use Rattle.hs_cooper.specs.Searching.{IsRefusedNearAt, IsRefusedNearBound, IsRefusedNear, IsRefusedLowAt, IsRefusedLow, IsRefusedSearch};
ghost use Rattle.hs_cooper_forms.specs.declared.refusal.Refusal.TheVariants as refusal;
ghost use Rattle.hs_cooper.specs.declared.stop.Stop.TheVariants.{Atoms, Wide};

use crate::Stop;
use crate::back::to_pure;
use crate::elimination::scaled;
use crate::limit::{low_value, lower_by};
use crate::third::count_cases;
use crate::value::value;
use hs_cooper_forms::{Change, Nnf, Refusal, apply, shifted};
use hs_pure::{Lin, Pure, Valuation, Var};
use std::alloc::Global;

// Whether the formula is true at `v`.
fn is_true(alloc: Global, f: &Nnf, v: &Valuation) -> Result<bool, Refusal>
    ensures truth { IfOk result (λ b. b ≡ evaluates_to (stack_of v.now) (assertion (form_of f.now))) }
    ensures wide { IsErrOf result refusal.Wide → IsWide (form_of f.now) ⊎ (¬ (NumbersFit (stack_of v.now) (assertion (form_of f.now)))) }
{
    let p = to_pure(alloc, f)?;
    match p.eval(v) {
        Ok(truth) => Ok(truth),
        Err(_) => Err(Refusal::Wide),
    }
}

// The value of `b + j`, if the formula is true where that is x.
fn near_at(
    alloc: Global,
    f: &Nnf,
    x: Var,
    b: &Lin,
    j: u64,
    v: &Valuation,
) -> Result<Option<i128>, Refusal>
    ensures first { IfOk result (λ o. o ≡ near_at (stack_of v.now) (place x) (form_of f.now) b.now j) }
    ensures wide { IsErrOf result refusal.Wide → IsRefusedNearAt (stack_of v.now) x (form_of f.now) b.now j }
{
    let sum = shifted(alloc, b, j)?;
    let Ok(y) = value(&sum, v) else {
        return Err(Refusal::Wide);
    };
    let case = apply(alloc, &Change::Substitute(x, sum), f)?;
    if is_true(alloc, &case, v)? {
        Ok(Some(y))
    } else {
        Ok(None)
    }
}

// The first `b + j`, for a number j from 1 to `period`, that makes the formula true.
fn near_bound(
    alloc: Global,
    f: &Nnf,
    x: Var,
    b: &Lin,
    period: u64,
    v: &Valuation,
) -> Result<Option<i128>, Refusal>
    requires { period < 2 ^ 31 }
    ensures first { IfOk result (λ o. o ≡ first_near_bound (stack_of v.now) (place x) (form_of f.now) period b.now) }
    ensures wide { IsErrOf result refusal.Wide → IsRefusedNearBound (stack_of v.now) x (form_of f.now) period b.now }
{
    for j in 1..period + 1 {
        if let Some(y) = near_at(alloc, f, x, b, j, v)? {
            return Ok(Some(y));
        }
    }
    Ok(None)
}

// The first such sum, bound by bound.
fn near(
    alloc: Global,
    f: &Nnf,
    x: Var,
    bounds: &[Lin],
    period: u64,
    v: &Valuation,
) -> Result<Option<i128>, Refusal>
    requires { period < 2 ^ 31 }
    ensures first { IfOk result (λ o. o ≡ first_near (stack_of v.now) (place x) (form_of f.now) period bounds.now) }
    ensures wide { IsErrOf result refusal.Wide → IsRefusedNear (stack_of v.now) x (form_of f.now) period bounds.now }
{
    for b in bounds {
        if let Some(y) = near_bound(alloc, f, x, b, period, v)? {
            return Ok(Some(y));
        }
    }
    Ok(None)
}

// The value that `j` gives, if it makes the minus-infinity form true.
fn low_at(
    alloc: Global,
    f: &Nnf,
    x: Var,
    j: u64,
    period: u64,
    v: &Valuation,
) -> Result<Option<i128>, Refusal>
    requires some { 1 ≤ j }
    requires within { j ≤ period }
    requires small { period < 2 ^ 31 }
    ensures first { IfOk result (λ o. o ≡ low_at (stack_of v.now) (place x) (form_of f.now) period j) }
    ensures wide { IsErrOf result refusal.Wide → IsRefusedLowAt (stack_of v.now) x (form_of f.now) j ⊎ IsWideLow (stack_of v.now) (place x) (form_of f.now) (low_at (stack_of v.now) (place x) (form_of f.now) period j) }
{
    let case = apply(alloc, &Change::Low(x, j), f)?;
    if !is_true(alloc, &case, v)? {
        return Ok(None);
    }
    let mut least = None;
    lower_by(alloc, &mut least, f, x, v)?;
    match low_value(j, period, &least) {
        Some(y) => Ok(Some(y)),
        None => Err(Refusal::Wide),
    }
}

// The value of the first number from 1 to `period` that makes the minus-infinity form true.
fn low(alloc: Global, f: &Nnf, x: Var, period: u64, v: &Valuation) -> Result<Option<i128>, Refusal>
    requires { period < 2 ^ 31 }
    ensures first { IfOk result (λ o. o ≡ first_low (stack_of v.now) (place x) (form_of f.now) period) }
    ensures wide { IsErrOf result refusal.Wide → IsRefusedLow (stack_of v.now) x (form_of f.now) period }
{
    for j in 1..period + 1 {
        if let Some(y) = low_at(alloc, f, x, j, period, v)? {
            return Ok(Some(y));
        }
    }
    Ok(None)
}

// The first value that works, of x after the second stage.
fn search(
    alloc: Global,
    f: &Nnf,
    x: Var,
    bounds: &[Lin],
    period: u64,
    v: &Valuation,
) -> Result<Option<i128>, Refusal>
    requires { period < 2 ^ 31 }
    ensures first { IfOk result (λ o. o ≡ first_value (stack_of v.now) (place x) (form_of f.now) period bounds.now) }
    ensures wide { IsErrOf result refusal.Wide → IsRefusedSearch (stack_of v.now) x (form_of f.now) period bounds.now }
{
    if let Some(y) = near(alloc, f, x, bounds, period, v)? {
        return Ok(Some(y));
    }
    low(alloc, f, x, period, v)
}

// A multiple divided by its factor.
fn quotient(y: i128, by: u128) -> i128
    requires some { 0 < by }
    requires fits { by < 2 ^ 127 }
    ensures { result ≡ int_div y (pos by) }
{
    y / by as i128
}

/// The plain value of `x`, which makes `f` true where the other variables are worth what `v` says, or none where
/// no integer does. `f` has neither quantifiers nor bag literals, its sums are in order, and `budget` is at most
/// 2^30.
///
/// The stops are those of `eliminate`, and `Wide` comes also where a partial sum at `v`, or the plain value of
/// `x`, passes 128 bits.
pub fn witness(
    alloc: Global,
    x: Var,
    f: &Pure,
    v: &Valuation,
    budget: u64,
) -> Result<Option<i128>, Stop>
    requires simple { IsTrue (is_simple (assertion_of f.now)) }
    requires ordered { IsOrdered f.now }
    requires small { budget ≤ 2 ^ 30 }
    ensures plain { IfOk result (λ o. o ≡ plain_value (stack_of v.now) x (assertion_of f.now)) }
    ensures found { IfOk result (λ o. IfSome o (λ y. TrueAt (with_value x (number_value y) (stack_of v.now)) f.now)) }
    ensures none { IfOk result (λ o. o ≡ None → (y : ℤ) → ¬ (TrueAt (with_value x (number_value y) (stack_of v.now)) f.now)) }
    ensures atoms { IsErrOf result Atoms → PassesAtoms budget x (assertion_of f.now) }
    ensures wide { IsErrOf result Wide → PassesBits budget x (assertion_of f.now) ⊎ PassesValues (stack_of v.now) x (assertion_of f.now) }
{
    let scaled = scaled(alloc, x, f, budget)?;
    let cases = count_cases(alloc, &scaled.formula, x, budget)?;
    let found = search(
        alloc,
        &scaled.formula,
        x,
        cases.bounds.as_slice(),
        cases.period,
        v,
    )?;
    match found {
        Some(y) => Ok(Some(quotient(y, scaled.by))),
        None => Ok(None),
    }
}
