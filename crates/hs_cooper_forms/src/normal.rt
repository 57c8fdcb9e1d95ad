//! The first stage: negation normal form, evaluated.

ghost use Rattle.std.specs.Prelude.{◌≡◌, ◌+◌, ◌<◌, ◌^◌, true, map, min, sum, IfOk, IsErrOf};
ghost use Rattle.std.specs.List.{Contains};
ghost use Rattle.hs_pure.specs.Assertion.{eq, lt, le, divides};
ghost use Rattle.hs_pure.specs.declared.pure.Pure.{Pure};
ghost use Rattle.hs_elimination.specs.Form.{atoms, IsWide};
ghost use Rattle.hs_elimination.specs.Normal.{normal, less, at_most, evaluate};
ghost use Rattle.hs_cooper_forms.specs.Reading.{form_of, literal_form, joined, IsCanonical};
ghost use Rattle.hs_cooper_forms.specs.Normalizing.{side, first_stage};
ghost use Rattle.hs_cooper_forms.specs.declared.refusal.Refusal.TheVariants.{Wide};

use crate::gather::Gathered;
use crate::linear::{add, copy, subtract_and_one};
use crate::nnf::{Connective, Literal, Nnf, Relation, evaluated};
use crate::refusal::Refusal;
use crate::sign::Sign;
use hs_pure::{Lin, Pure};
use std::alloc::Global;
use std::cmp::min;

/// How many atoms the first stage of `p` has, or `budget + 1` if there are more than `budget`, which is below 2^31.
#[cycle(counting)]
pub fn count_normal(p: &Pure, budget: u64) -> u64
    requires { budget < 2 ^ 31 }
    ensures { result ≡ min (atoms (first_stage true p.now)) (budget + 1) }
{
    match p {
        Pure::Eq(_, _) => min(2, budget + 1),
        Pure::Lt(_, _) | Pure::Le(_, _) => 1,
        Pure::Divides(d, _) => if *d < 1 { 0 } else { 1 },
        Pure::Not(p) => count_normal(p.get(), budget),
        Pure::And(ps) => count_all_normal(ps.as_slice(), budget),
        Pure::Or(ps) => count_all_normal(ps.as_slice(), budget),
        Pure::BagEq(_, _)
        | Pure::Subset(_, _)
        | Pure::Member(_, _)
        | Pure::AllOf(_, _, _)
        | Pure::Exists(_, _)
        | Pure::Forall(_, _) => 0,
    }
}

#[cycle(counting)]
fn count_all_normal(ps: &[Pure], budget: u64) -> u64
    requires { budget < 2 ^ 31 }
    ensures { result ≡ min (sum (map (λ p. atoms (first_stage true p)) ps.now)) (budget + 1) }
{
    let mut count = 0;
    for p in ps {
        count = min(count + count_normal(p, budget), budget + 1);
    }
    count
}

fn side(positive: bool, c: Connective) -> Connective
    ensures { result ≡ side positive c }
{
    if positive {
        return c;
    }
    match c {
        Connective::And => Connective::Or,
        Connective::Or => Connective::And,
    }
}

// a < b
fn less(alloc: Global, a: &Lin, b: &Lin) -> Result<Literal, Refusal>
    ensures form { IfOk result (λ r. literal_form r ≡ less a.now b.now) }
    ensures wide { IsErrOf result Wide → IsWide (less a.now b.now) }
    ensures narrow { IfOk result (λ _. ¬ (IsWide (less a.now b.now))) }
{
    Ok(Literal {
        relation: Relation::Positive,
        sum: add(alloc, Sign::Minus, a, b)?,
    })
}

// a <= b
fn at_most(alloc: Global, a: &Lin, b: &Lin) -> Result<Literal, Refusal>
    ensures form { IfOk result (λ r. literal_form r ≡ at_most a.now b.now) }
    ensures wide { IsErrOf result Wide → IsWide (at_most a.now b.now) }
    ensures narrow { IfOk result (λ _. ¬ (IsWide (at_most a.now b.now))) }
{
    Ok(Literal {
        relation: Relation::Positive,
        sum: subtract_and_one(alloc, a, b)?,
    })
}

// a < b, or b <= a
fn less_or_not(alloc: Global, positive: bool, a: &Lin, b: &Lin) -> Result<Literal, Refusal>
    ensures form { IfOk result (λ r. literal_form r ≡ normal positive (lt a.now b.now)) }
    ensures wide { IsErrOf result Wide → IsWide (normal positive (lt a.now b.now)) }
    ensures narrow { IfOk result (λ _. ¬ (IsWide (normal positive (lt a.now b.now)))) }
{
    if positive {
        less(alloc, a, b)
    } else {
        at_most(alloc, b, a)
    }
}

// a <= b, or b < a
fn at_most_or_not(alloc: Global, positive: bool, a: &Lin, b: &Lin) -> Result<Literal, Refusal>
    ensures form { IfOk result (λ r. literal_form r ≡ normal positive (le a.now b.now)) }
    ensures wide { IsErrOf result Wide → IsWide (normal positive (le a.now b.now)) }
    ensures narrow { IfOk result (λ _. ¬ (IsWide (normal positive (le a.now b.now)))) }
{
    if positive {
        at_most(alloc, a, b)
    } else {
        less(alloc, b, a)
    }
}

// a = b as two inequalities, or one of two
fn equal_or_not(alloc: Global, positive: bool, a: &Lin, b: &Lin) -> Result<Nnf, Refusal>
    ensures form { IfOk result (λ r. form_of r ≡ evaluate (normal positive (eq a.now b.now))) }
    ensures canonical { IfOk result IsCanonical }
    ensures wide { IsErrOf result Wide → IsWide (normal positive (eq a.now b.now)) }
    ensures narrow { IfOk result (λ _. ¬ (IsWide (normal positive (eq a.now b.now)))) }
{
    let mut members = Gathered::new(alloc, side(positive, Connective::And));
    if positive {
        members.add(evaluated(at_most(alloc, a, b)?))?;
        members.add(evaluated(at_most(alloc, b, a)?))?;
    } else {
        members.add(evaluated(less(alloc, a, b)?))?;
        members.add(evaluated(less(alloc, b, a)?))?;
    }
    Ok(members.finish())
}

// `d` divides a, or not; a divisor below 1 divides nothing
fn divides_or_not(alloc: Global, positive: bool, d: i128, a: &Lin) -> Result<Nnf, Refusal>
    ensures form { IfOk result (λ r. form_of r ≡ evaluate (normal positive (divides d a.now))) }
    ensures canonical { IfOk result IsCanonical }
    ensures wide { IsErrOf result Wide → IsWide (normal positive (divides d a.now)) }
    ensures narrow { IfOk result (λ _. ¬ (IsWide (normal positive (divides d a.now)))) }
{
    if d < 1 {
        return Ok(Nnf::Truth(!positive));
    }
    let d = d.unsigned_abs();
    let relation = if positive {
        Relation::Multiple(d)
    } else {
        Relation::NoMultiple(d)
    };
    let sum = copy(alloc, a)?;
    Ok(evaluated(Literal { relation, sum }))
}

/// The first stage of the formula, or of its denial, evaluated. Quantifiers and bag literals are not for it. `Wide`
/// comes where a number of the stage passes 128 bits.
#[cycle(normal)]
pub fn normalize(alloc: Global, positive: bool, p: &Pure) -> Result<Nnf, Refusal>
    ensures form { IfOk result (λ r. form_of r ≡ evaluate (first_stage positive p.now)) }
    ensures canonical { IfOk result IsCanonical }
    ensures wide { IsErrOf result Wide → IsWide (first_stage positive p.now) }
    ensures narrow { IfOk result (λ _. ¬ (IsWide (first_stage positive p.now))) }
{
    match p {
        Pure::Eq(a, b) => equal_or_not(alloc, positive, a, b),
        Pure::Lt(a, b) => Ok(evaluated(less_or_not(alloc, positive, a, b)?)),
        Pure::Le(a, b) => Ok(evaluated(at_most_or_not(alloc, positive, a, b)?)),
        Pure::Divides(d, a) => divides_or_not(alloc, positive, *d, a),
        Pure::Not(p) => normalize(alloc, !positive, p.get()),
        Pure::And(ps) => normalize_all(alloc, positive, Connective::And, ps.as_slice()),
        Pure::Or(ps) => normalize_all(alloc, positive, Connective::Or, ps.as_slice()),
        Pure::BagEq(_, _)
        | Pure::Subset(_, _)
        | Pure::Member(_, _)
        | Pure::AllOf(_, _, _)
        | Pure::Exists(_, _)
        | Pure::Forall(_, _) => Ok(Nnf::Truth(false)),
    }
}

#[cycle(normal)]
fn normalize_all(
    alloc: Global,
    positive: bool,
    connective: Connective,
    ps: &[Pure],
) -> Result<Nnf, Refusal>
    ensures form { IfOk result (λ r. form_of r ≡ joined (side positive connective) (map (λ p. evaluate (first_stage positive p)) ps.now)) }
    ensures canonical { IfOk result IsCanonical }
    ensures wide { IsErrOf result Wide → ((p : Pure) × (Contains ps.now p × IsWide (first_stage positive p))) }
    ensures narrow { IfOk result (λ _. (p : Pure) → Contains ps.now p → ¬ (IsWide (first_stage positive p))) }
{
    let mut members = Gathered::new(alloc, side(positive, connective));
    for p in ps {
        let member = normalize(alloc, positive, p)?;
        members.add(member)?;
    }
    Ok(members.finish())
}
