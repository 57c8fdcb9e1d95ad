//! What the rows of a state tell of claims, and the cases that are left by it.

ghost use Rattle.std.specs.Prelude.{◌≡◌, false, IfOk, IsTrue};
ghost use Rattle.std.specs.List.{All, Any};
ghost use Rattle.hs_pure.specs.Stack.{Stack};
ghost use Rattle.hs_equations.specs.Rows.{Holds};
ghost use Rattle.hs_equations.specs.Claims.{truth_at, IsClaimed, IsCase, IsAnd, IsOr, HoldsAll};

use crate::claim::{Case, Claim, State};
use crate::halt::Halt;
use crate::literal::comparison;
use crate::rows::{Rows, is_refuted};
use hs_pure::Pure;
use sqlite_items::Items;
use std::alloc::Global;

// Whether a formula is seen not to be as expected.
#[cycle(refuting)]
pub(crate) fn refuted(alloc: Global, rows: &Rows, p: &Pure, expected: bool) -> Result<bool, Halt>
    ensures { IfOk result (λ r. IsTrue r → (s : Stack) → Holds s rows.now → ¬ (truth_at s p.now ≡ expected)) }
{
    match p {
        Pure::Not(p) => refuted(alloc, rows, p.get(), !expected),
        Pure::And(ps) => and_refuted(alloc, rows, ps.as_slice(), expected),
        Pure::Or(ps) => or_refuted(alloc, rows, ps.as_slice(), expected),
        _ => literal_refuted(alloc, rows, p, expected),
    }
}

#[cycle(refuting)]
fn and_refuted(alloc: Global, rows: &Rows, ps: &[Pure], expected: bool) -> Result<bool, Halt>
    ensures { IfOk result (λ r. IsTrue r → (s : Stack) → Holds s rows.now → ¬ (IsAnd s expected ps.now)) }
{
    if expected {
        one_refuted(alloc, rows, ps, true)
    } else {
        all_refuted(alloc, rows, ps, false)
    }
}

#[cycle(refuting)]
fn or_refuted(alloc: Global, rows: &Rows, ps: &[Pure], expected: bool) -> Result<bool, Halt>
    ensures { IfOk result (λ r. IsTrue r → (s : Stack) → Holds s rows.now → ¬ (IsOr s expected ps.now)) }
{
    if expected {
        all_refuted(alloc, rows, ps, true)
    } else {
        one_refuted(alloc, rows, ps, false)
    }
}

#[cycle(refuting)]
fn one_refuted(alloc: Global, rows: &Rows, ps: &[Pure], expected: bool) -> Result<bool, Halt>
    ensures { IfOk result (λ r. IsTrue r → (s : Stack) → Holds s rows.now → ¬ (All (λ p. truth_at s p ≡ expected) ps.now)) }
{
    for p in ps {
        let found = refuted(alloc, rows, p, expected)?;
        if found {
            return Ok(true);
        }
    }
    Ok(false)
}

#[cycle(refuting)]
fn all_refuted(alloc: Global, rows: &Rows, ps: &[Pure], expected: bool) -> Result<bool, Halt>
    ensures { IfOk result (λ r. IsTrue r → (s : Stack) → Holds s rows.now → ¬ (Any (λ p. truth_at s p ≡ expected) ps.now)) }
{
    for p in ps {
        let found = refuted(alloc, rows, p, expected)?;
        if !found {
            return Ok(false);
        }
    }
    Ok(true)
}

fn literal_refuted(alloc: Global, rows: &Rows, p: &Pure, expected: bool) -> Result<bool, Halt>
    ensures { IfOk result (λ r. IsTrue r → (s : Stack) → Holds s rows.now → ¬ (truth_at s p.now ≡ expected)) }
{
    let row = comparison(alloc, p, expected)?;
    match row {
        Some(row) => is_refuted(alloc, rows, row),
        None => Ok(false),
    }
}

// One more claim, unless it is gone.
fn put_claim<'a>(
    claims: Items<Claim<'a>>,
    claim: &Claim<'a>,
    gone: bool,
) -> Result<Items<Claim<'a>>, Halt>
    ensures old { IfOk result (λ cs. (s : Stack) → Any (IsClaimed s) claims.entry → Any (IsClaimed s) cs) }
    ensures new { IfOk result (λ cs. gone ≡ false → (s : Stack) → IsClaimed s claim.now → Any (IsClaimed s) cs) }
{
    if gone {
        return Ok(claims);
    }
    let mut all = claims;
    all.push(*claim)?;
    Ok(all)
}

// The claims that are not seen to be false.
fn open_claims<'a>(
    alloc: Global,
    rows: &Rows,
    claims: &[Claim<'a>],
) -> Result<Items<Claim<'a>>, Halt>
    ensures { IfOk result (λ cs. (s : Stack) → Holds s rows.now → Any (IsClaimed s) claims.now → Any (IsClaimed s) cs) }
{
    let mut left = Items::new(alloc);
    for c in claims {
        let gone = refuted(alloc, rows, c.formula, c.expected)?;
        left = put_claim(left, c, gone)?;
    }
    Ok(left)
}

// Whether some claim is seen to be true.
fn is_known(alloc: Global, rows: &Rows, claims: &[Claim]) -> Result<bool, Halt> {
    for c in claims {
        if refuted(alloc, rows, c.formula, !c.expected)? {
            return Ok(true);
        }
    }
    Ok(false)
}

// One more case, unless it is known to be true.
fn put_case<'a>(
    alloc: Global,
    rows: &Rows,
    cases: Items<Case<'a>>,
    case: &Case<'a>,
) -> Result<Items<Case<'a>>, Halt>
    ensures { IfOk result (λ all. (s : Stack) → Holds s rows.now → All (IsCase s) cases.entry → IsCase s case.now → All (IsCase s) all) }
{
    let known = is_known(alloc, rows, case.claims.as_slice())?;
    if known {
        return Ok(cases);
    }
    let mut all = cases;
    let claims = open_claims(alloc, rows, case.claims.as_slice())?;
    all.push(Case { claims })?;
    Ok(all)
}

// The state without the cases that are seen to be true, and the claims that are seen to be false.
pub(crate) fn sifted_cases<'a>(alloc: Global, state: State<'a>) -> Result<State<'a>, Halt>
    ensures { IfOk result (λ t. (s : Stack) → HoldsAll s state.entry → HoldsAll s t) }
{
    let State { rows, cases } = state;
    let mut left = cases;
    let mut kept = Items::new(alloc);
    while let Some(case) = left.pop() {
        kept = put_case(alloc, &rows, kept, &case)?;
    }
    Ok(State { rows, cases: kept })
}
