//! The number that is low enough for the minus-infinity form.

ghost use Rattle.std.specs.Prelude.{◌≡◌, ◌≤◌, ◌<◌, ◌^◌, None, Some, pos, MatchOption, OnOk, IsErrOf, SomeIff, FitsSigned};
ghost use mir.Syntax.{w128};
ghost use Rattle.std.specs.List.{Contains};
ghost use Rattle.hs_pure.specs.Eval.{stack_of};
ghost use Rattle.hs_pure.specs.Truth.{value};
ghost use Rattle.hs_elimination.specs.Linear.{place};
ghost use Rattle.hs_elimination.specs.Witness.{lesser, limit_of, least_limit, excess, low_value, IsWideLimit, HasWideLimit};
ghost use Rattle.hs_cooper_forms.specs.Reading.{form_of, literal_form};
ghost use Rattle.hs_cooper.specs.Searching.{limit_of_all};
ghost use Rattle.hs_cooper_forms.specs.declared.refusal.Refusal.TheVariants.{Wide};
ghost use Rattle.hs_cooper_forms.specs.declared.nnf.Nnf.{Nnf};

use crate::value::value;
use hs_cooper_forms::{Literal, Nnf, Refusal, Relation, coefficient, rest};
use hs_pure::{Lin, Valuation, Var};
use std::alloc::Global;
use std::cmp::min;

// The greatest x that the bound of `0 < c * x + r` leaves to the minus-infinity form.
fn limit_of(c: i128, r: &Lin, v: &Valuation) -> Option<i128>
    requires { ¬ (c ≡ pos 0) }
    ensures { MatchOption result (IsWideLimit (stack_of v.now) c r.now) (λ n. Some n ≡ limit_of c (value (stack_of v.now) r.now)) }
{
    let Ok(r) = value(r, v) else {
        return None;
    };
    if c > 0 {
        0i128.checked_sub(r)
    } else {
        r.checked_sub(1)
    }
}

fn lower(least: &mut Option<i128>, c: i128)
    ensures { least.new ≡ lesser least.old c }
{
    *least = match least {
        Some(a) => Some(min(*a, c)),
        None => Some(c),
    };
}

fn lower_by_literal(
    alloc: Global,
    least: &mut Option<i128>,
    l: &Literal,
    x: Var,
    v: &Valuation,
) -> Result<(), Refusal>
    ensures limit { OnOk result (least.new ≡ least_limit (stack_of v.now) (place x) (literal_form l.now) least.old) }
    ensures wide { IsErrOf result Wide → HasWideLimit (stack_of v.now) (place x) (literal_form l.now) }
{
    if l.relation != Relation::Positive {
        return Ok(());
    }
    let c = coefficient(&l.sum, x);
    if c == 0 {
        return Ok(());
    }
    let others = rest(alloc, &l.sum, x)?;
    let Some(limit) = limit_of(c, &others, v) else {
        return Err(Refusal::Wide);
    };
    lower(least, limit);
    Ok(())
}

// Lowers to the limits of the formula.
#[cycle(lowering)]
pub(crate) fn lower_by(
    alloc: Global,
    least: &mut Option<i128>,
    f: &Nnf,
    x: Var,
    v: &Valuation,
) -> Result<(), Refusal>
    ensures limit { OnOk result (least.new ≡ least_limit (stack_of v.now) (place x) (form_of f.now) least.old) }
    ensures wide { IsErrOf result Wide → HasWideLimit (stack_of v.now) (place x) (form_of f.now) }
{
    match f {
        Nnf::Truth(_) => Ok(()),
        Nnf::Literal(l) => lower_by_literal(alloc, least, l, x, v),
        Nnf::Joined(_, fs) => lower_by_all(alloc, least, fs.as_slice(), x, v),
    }
}

#[cycle(lowering)]
fn lower_by_all(
    alloc: Global,
    least: &mut Option<i128>,
    fs: &[Nnf],
    x: Var,
    v: &Valuation,
) -> Result<(), Refusal>
    ensures limit { OnOk result (least.new ≡ limit_of_all (stack_of v.now) (place x) fs.now least.old) }
    ensures wide { IsErrOf result Wide → ((f : Nnf) × (Contains fs.now f × HasWideLimit (stack_of v.now) (place x) (form_of f))) }
{
    for f in fs {
        lower_by(alloc, least, f, x, v)?;
    }
    Ok(())
}

// The greatest number within the limit that differs from `j` by a multiple of the period, if it fits.
pub(crate) fn low_value(j: u64, period: u64, limit: &Option<i128>) -> Option<i128>
    requires some { 1 ≤ j }
    requires within { j ≤ period }
    requires small { period < 2 ^ 31 }
    ensures { SomeIff result (FitsSigned w128 (low_value period j limit.now)) (low_value period j limit.now) }
{
    match limit {
        None => Some(i128::from(j)),
        Some(c) => {
            let offset = c.rem_euclid(i128::from(period)).unsigned_abs();
            let excess = (offset + u128::from(period - j)) % u128::from(period);
            c.checked_sub(excess as i128)
        }
    }
}
