//! The forms of the sides of a question.

ghost use Rattle.std.specs.Prelude.{◌≡◌, ◌++◌, [], ◌∷◌, map, Option, None, Some, IfOk, IsErrOf, if◌then◌else◌};
ghost use Rattle.std.specs.List.{Contains};
ghost use Rattle.hs_pure.specs.declared.pure.Pure.{Pure};
ghost use Rattle.hs_pure.specs.Assertion.{assertion_of};
ghost use Rattle.hs_elimination.specs.Linear.{minus, IsWideLin};
ghost use Rattle.hs_unit.specs.Sides.{comparisons, all_comparisons, only_comparisons, joined, forms, are_zero, HasWideForm};
ghost use Rattle.hs_cooper_forms.specs.declared.refusal.Refusal.TheVariants.{Wide};

use hs_cooper_forms::Refusal;
use hs_pure::{Lin, NoMemory, Pure};
use hs_substitute::difference;
use sqlite_items::Items;
use std::alloc::Global;

/// How a form compares with 0.
#[derive(Clone, Copy, Debug, PartialEq, Eq)]
pub enum Kind {
    /// It is 0.
    Zero,
    /// It is below 0.
    Below,
    /// It is at most 0.
    Most,
}

// One more comparison of a - b with 0.
fn push(
    alloc: Global,
    all: &mut Items<(Kind, Lin)>,
    kind: Kind,
    a: &Lin,
    b: &Lin,
) -> Result<bool, Refusal>
    ensures forms { IfOk result (λ r. Some (all.old ++ (kind, minus a.now b.now) ∷ []) ≡ (if r then Some all.new else None)) }
    ensures wide { IsErrOf result Wide → IsWideLin (minus a.now b.now) }
{
    let form = difference(alloc, a, b)?;
    all.push((kind, form))?;
    Ok(true)
}

// Adds the comparisons of a comparison or of a conjunction of such; false where the formula is something else.
#[cycle(collect)]
fn collect(alloc: Global, all: &mut Items<(Kind, Lin)>, p: &Pure) -> Result<bool, Refusal>
    ensures forms { IfOk result (λ r. joined (Some all.old) (comparisons (assertion_of p.now)) ≡ (if r then Some all.new else None)) }
    ensures wide { IsErrOf result Wide → HasWideForm (assertion_of p.now) }
{
    match p {
        Pure::Eq(a, b) => push(alloc, all, Kind::Zero, a, b),
        Pure::Lt(a, b) => push(alloc, all, Kind::Below, a, b),
        Pure::Le(a, b) => push(alloc, all, Kind::Most, a, b),
        Pure::And(ps) => collect_all(alloc, all, ps.as_slice()),
        Pure::Or(ps) => collect_only(alloc, all, ps.as_slice()),
        Pure::Divides(_, _)
        | Pure::BagEq(_, _)
        | Pure::Subset(_, _)
        | Pure::Member(_, _)
        | Pure::AllOf(_, _, _)
        | Pure::Not(_)
        | Pure::Exists(_, _)
        | Pure::Forall(_, _) => Ok(false),
    }
}

#[cycle(collect)]
fn collect_all(alloc: Global, all: &mut Items<(Kind, Lin)>, ps: &[Pure]) -> Result<bool, Refusal>
    ensures forms { IfOk result (λ r. joined (Some all.old) (all_comparisons (map assertion_of ps.now)) ≡ (if r then Some all.new else None)) }
    ensures wide { IsErrOf result Wide → ((p : Pure) × (Contains ps.now p × HasWideForm (assertion_of p))) }
{
    for p in ps {
        if !collect(alloc, all, p)? {
            return Ok(false);
        }
    }
    Ok(true)
}

// Of a list with one member; false where there is another.
#[cycle(collect)]
fn collect_only(alloc: Global, all: &mut Items<(Kind, Lin)>, ps: &[Pure]) -> Result<bool, Refusal>
    ensures forms { IfOk result (λ r. joined (Some all.old) (only_comparisons (map assertion_of ps.now)) ≡ (if r then Some all.new else None)) }
    ensures wide { IsErrOf result Wide → ((p : Pure) × ((ps.now ≡ p ∷ []) × HasWideForm (assertion_of p))) }
{
    let Some((p, rest)) = ps.split_first() else {
        return Ok(false);
    };
    if !rest.is_empty() {
        return Ok(false);
    }
    collect(alloc, all, p)
}

// The comparisons of a side, in order; none where it is something else.
pub(crate) fn comparisons(alloc: Global, p: &Pure) -> Result<Option<Items<(Kind, Lin)>>, Refusal>
    ensures forms { IfOk result (λ o. o ≡ comparisons (assertion_of p.now)) }
    ensures wide { IsErrOf result Wide → HasWideForm (assertion_of p.now) }
{
    let mut all = Items::new(alloc);
    let is_all = collect(alloc, &mut all, p)?;
    Ok(if is_all { Some(all) } else { None })
}

pub(crate) fn forms(alloc: Global, cs: &[(Kind, Lin)]) -> Result<Items<Lin>, NoMemory>
    ensures { IfOk result (λ fs. fs ≡ forms cs.now) }
{
    let mut all = Items::new(alloc);
    for c in cs {
        all.push(c.1.copy(alloc)?)?;
    }
    Ok(all)
}

// Whether all are equations.
pub(crate) fn are_zero(cs: &[(Kind, Lin)]) -> bool
    ensures { result ≡ are_zero cs.now }
{
    for c in cs {
        if c.0 != Kind::Zero {
            return false;
        }
    }
    true
}
