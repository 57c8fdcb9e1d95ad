//! Claims that formulas are true or false, and the state of a search: rows, and cases of claims.

ghost use Rattle.std.specs.Prelude.{◌≡◌, IfOk};
ghost use Rattle.std.specs.List.{All, Any};
ghost use Rattle.hs_pure.specs.Stack.{Stack};
ghost use Rattle.hs_equations.specs.Rows.{IsMet};
ghost use Rattle.hs_equations.specs.Claims.{truth_at, IsClaimed, IsCase, IsAnd, IsOr, HoldsAll};

use crate::halt::Halt;
use crate::literal::comparison;
use crate::row::Row;
use crate::rows::{Rows, wait};
use hs_pure::Pure;
use sqlite_items::Items;
use std::alloc::Global;

/// That a formula is true, or that it is false.
#[derive(Clone, Copy, Debug)]
pub(crate) struct Claim<'a> {
    pub(crate) formula: &'a Pure,
    pub(crate) expected: bool,
}

/// Claims of which one is true.
#[derive(Debug, Drop)]
pub(crate) struct Case<'a> {
    pub(crate) claims: Items<Claim<'a>>,
}

/// Rows and cases.
#[derive(Debug, Drop)]
pub(crate) struct State<'a> {
    pub(crate) rows: Rows,
    pub(crate) cases: Items<Case<'a>>,
}

// One more claim.
#[cycle(assuming)]
pub(crate) fn assume<'a>(
    alloc: Global,
    state: State<'a>,
    p: &'a Pure,
    expected: bool,
) -> Result<State<'a>, Halt>
    ensures { IfOk result (λ t. (s : Stack) → HoldsAll s state.entry → truth_at s p.now ≡ expected → HoldsAll s t) }
{
    match p {
        Pure::Not(p) => assume(alloc, state, p.get(), !expected),
        Pure::And(ps) => assume_and(alloc, state, ps.as_slice(), expected),
        Pure::Or(ps) => assume_or(alloc, state, ps.as_slice(), expected),
        _ => assume_literal(alloc, state, p, expected),
    }
}

// That all of the formulas are true, or that one is false.
#[cycle(assuming)]
fn assume_and<'a>(
    alloc: Global,
    state: State<'a>,
    ps: &'a [Pure],
    expected: bool,
) -> Result<State<'a>, Halt>
    ensures { IfOk result (λ t. (s : Stack) → HoldsAll s state.entry → IsAnd s expected ps.now → HoldsAll s t) }
{
    if expected {
        assume_all(alloc, state, ps, true)
    } else {
        assume_one(alloc, state, ps, false)
    }
}

// That one of the formulas is true, or that all are false.
#[cycle(assuming)]
fn assume_or<'a>(
    alloc: Global,
    state: State<'a>,
    ps: &'a [Pure],
    expected: bool,
) -> Result<State<'a>, Halt>
    ensures { IfOk result (λ t. (s : Stack) → HoldsAll s state.entry → IsOr s expected ps.now → HoldsAll s t) }
{
    if expected {
        assume_one(alloc, state, ps, true)
    } else {
        assume_all(alloc, state, ps, false)
    }
}

// That each of the formulas is as expected.
#[cycle(assuming)]
fn assume_all<'a>(
    alloc: Global,
    state: State<'a>,
    ps: &'a [Pure],
    expected: bool,
) -> Result<State<'a>, Halt>
    ensures { IfOk result (λ t. (s : Stack) → HoldsAll s state.entry → All (λ p. truth_at s p ≡ expected) ps.now → HoldsAll s t) }
{
    let mut now = state;
    for p in ps {
        now = assume(alloc, now, p, expected)?;
    }
    Ok(now)
}

// That one of the formulas is as expected.
fn assume_one<'a>(
    alloc: Global,
    state: State<'a>,
    ps: &'a [Pure],
    expected: bool,
) -> Result<State<'a>, Halt>
    ensures { IfOk result (λ t. (s : Stack) → HoldsAll s state.entry → Any (λ p. truth_at s p ≡ expected) ps.now → HoldsAll s t) }
{
    let State { rows, mut cases } = state;
    let claims = claims_of(alloc, ps, expected)?;
    cases.push(Case { claims })?;
    Ok(State { rows, cases })
}

fn claims_of<'a>(alloc: Global, ps: &'a [Pure], expected: bool) -> Result<Items<Claim<'a>>, Halt>
    ensures { IfOk result (λ cs. (s : Stack) → Any (λ p. truth_at s p ≡ expected) ps.now → Any (IsClaimed s) cs) }
{
    let mut claims = Items::new(alloc);
    for p in ps {
        claims.push(Claim {
            formula: p,
            expected,
        })?;
    }
    Ok(claims)
}

// One more claim on a formula that is a comparison, or of which nothing is kept.
fn assume_literal<'a>(
    alloc: Global,
    state: State<'a>,
    p: &Pure,
    expected: bool,
) -> Result<State<'a>, Halt>
    ensures { IfOk result (λ t. (s : Stack) → HoldsAll s state.entry → truth_at s p.now ≡ expected → HoldsAll s t) }
{
    let row = comparison(alloc, p, expected)?;
    match row {
        Some(row) => assume_row(state, row),
        None => Ok(state),
    }
}

// One more row.
pub(crate) fn assume_row(state: State, row: Row) -> Result<State, Halt>
    ensures { IfOk result (λ t. (s : Stack) → HoldsAll s state.entry → IsMet s row → HoldsAll s t) }
{
    let State { rows, cases } = state;
    let rows = wait(rows, row)?;
    Ok(State { rows, cases })
}
