//! Formulas made of sums and formulas. Each is made on the heap, so that it is dropped by one call.

ghost use Rattle.std.specs.Prelude.{◌≡◌, [], ◌∷◌, pos, IfOk};
ghost use Rattle.hs_pure.specs.Assertion.{assertion_of, truth, eq, lt, le, negation, both, either};
ghost use Rattle.hs_elimination.specs.Linear.{plus};
ghost use Rattle.hs_reduction.specs.Reduction.{is_single, is_sum, is_least, is_difference};
ghost use Rattle.hs_bag_parts.specs.Formulas.{counted, related};

use crate::sums::{counted, counts, zero};
use hs_cooper_forms::constant;
use hs_pure::{Lin, NoMemory, Pure};
use sqlite_items::{Boxed, Items};
use std::alloc::Global;

/// What is always true.
pub fn truth(alloc: Global) -> Result<Boxed<Pure>, NoMemory>
    ensures { IfOk result (λ r. assertion_of r ≡ truth) }
{
    Ok(Boxed::new(alloc, Pure::And(Items::new(alloc)))?)
}

/// `a` is equal to `b`.
pub fn equal(alloc: Global, a: &Lin, b: &Lin) -> Result<Boxed<Pure>, NoMemory>
    ensures { IfOk result (λ r. assertion_of r ≡ eq a.now b.now) }
{
    Ok(Boxed::new(alloc, Pure::Eq(a.copy(alloc)?, b.copy(alloc)?))?)
}

/// `a` is less than `b`.
pub fn less(alloc: Global, a: &Lin, b: &Lin) -> Result<Boxed<Pure>, NoMemory>
    ensures { IfOk result (λ r. assertion_of r ≡ lt a.now b.now) }
{
    Ok(Boxed::new(alloc, Pure::Lt(a.copy(alloc)?, b.copy(alloc)?))?)
}

/// `a` is at most `b`.
pub fn at_most(alloc: Global, a: &Lin, b: &Lin) -> Result<Boxed<Pure>, NoMemory>
    ensures { IfOk result (λ r. assertion_of r ≡ le a.now b.now) }
{
    Ok(Boxed::new(alloc, Pure::Le(a.copy(alloc)?, b.copy(alloc)?))?)
}

/// The denial.
pub fn not(alloc: Global, p: Boxed<Pure>) -> Result<Boxed<Pure>, NoMemory>
    ensures { IfOk result (λ r. assertion_of r ≡ negation (assertion_of p)) }
{
    Ok(Boxed::new(alloc, Pure::Not(p))?)
}

fn pair(alloc: Global, p: Boxed<Pure>, q: Boxed<Pure>) -> Result<Items<Pure>, NoMemory>
    ensures { IfOk result (λ r. r ≡ p ∷ q ∷ []) }
{
    let mut parts = Items::new(alloc);
    parts.push(p.into_inner())?;
    parts.push(q.into_inner())?;
    Ok(parts)
}

/// Both.
pub fn and(alloc: Global, p: Boxed<Pure>, q: Boxed<Pure>) -> Result<Boxed<Pure>, NoMemory>
    ensures { IfOk result (λ r. assertion_of r ≡ both (assertion_of p) (assertion_of q)) }
{
    Ok(Boxed::new(alloc, Pure::And(pair(alloc, p, q)?))?)
}

/// One or the other, or both.
pub fn or(alloc: Global, p: Boxed<Pure>, q: Boxed<Pure>) -> Result<Boxed<Pure>, NoMemory>
    ensures { IfOk result (λ r. assertion_of r ≡ either (assertion_of p) (assertion_of q)) }
{
    Ok(Boxed::new(alloc, Pure::Or(pair(alloc, p, q)?))?)
}

/// How two sums are compared.
#[derive(Clone, Copy, Debug, PartialEq, Eq)]
pub enum Relation {
    /// Equal.
    Equal,
    /// Less than.
    Less,
    /// At most.
    AtMost,
}

/// Two sums, compared.
pub fn compare(alloc: Global, relation: Relation, a: &Lin, b: &Lin) -> Result<Boxed<Pure>, NoMemory>
    ensures { IfOk result (λ r. assertion_of r ≡ related relation a.now b.now) }
{
    match relation {
        Relation::Equal => equal(alloc, a, b),
        Relation::Less => less(alloc, a, b),
        Relation::AtMost => at_most(alloc, a, b),
    }
}

// p and a = b
fn and_equal(alloc: Global, p: Boxed<Pure>, a: &Lin, b: &Lin) -> Result<Boxed<Pure>, NoMemory>
    ensures { IfOk result (λ r. assertion_of r ≡ both (assertion_of p) (eq a.now b.now)) }
{
    let q = equal(alloc, a, b)?;
    and(alloc, p, q)
}

/// `c` is 1 where `a` is the element, else 0.
pub fn is_single(alloc: Global, c: &Lin, element: &Lin, a: &Lin) -> Result<Boxed<Pure>, NoMemory>
    ensures { IfOk result (λ r. assertion_of r ≡ is_single c.now element.now a.now) }
{
    let is = equal(alloc, element, a)?;
    let once = and_equal(alloc, is, c, &constant(alloc, 1))?;
    let is = equal(alloc, element, a)?;
    let isnt = not(alloc, is)?;
    let never = and_equal(alloc, isnt, c, &zero(alloc))?;
    or(alloc, once, never)
}

/// `c` is the sum of two counts.
pub fn is_sum(
    alloc: Global,
    c: Option<u32>,
    x: Option<u32>,
    y: Option<u32>,
) -> Result<Boxed<Pure>, NoMemory>
    ensures { IfOk result (λ r. assertion_of r ≡ is_sum (counted c) (counted x) (counted y)) }
{
    let sum = counts(alloc, x, y)?;
    equal(alloc, &counted(alloc, c)?, &sum)
}

// x <= y and c = d
fn where_at_most(alloc: Global, x: &Lin, y: &Lin, c: &Lin, d: &Lin) -> Result<Boxed<Pure>, NoMemory>
    ensures { IfOk result (λ r. assertion_of r ≡ both (le x.now y.now) (eq c.now d.now)) }
{
    let p = at_most(alloc, x, y)?;
    and_equal(alloc, p, c, d)
}

// x < y and c = d
fn where_less(alloc: Global, x: &Lin, y: &Lin, c: &Lin, d: &Lin) -> Result<Boxed<Pure>, NoMemory>
    ensures { IfOk result (λ r. assertion_of r ≡ both (lt x.now y.now) (eq c.now d.now)) }
{
    let p = less(alloc, x, y)?;
    and_equal(alloc, p, c, d)
}

/// `c` is the lesser of two counts.
pub fn is_least(
    alloc: Global,
    c: Option<u32>,
    x: Option<u32>,
    y: Option<u32>,
) -> Result<Boxed<Pure>, NoMemory>
    ensures { IfOk result (λ r. assertion_of r ≡ is_least (counted c) (counted x) (counted y)) }
{
    let c = counted(alloc, c)?;
    let x = counted(alloc, x)?;
    let y = counted(alloc, y)?;
    let first = where_at_most(alloc, &x, &y, &c, &x)?;
    let second = where_less(alloc, &y, &x, &c, &y)?;
    or(alloc, first, second)
}

/// `c` is one count less another, or 0 where the other is greater.
pub fn is_difference(
    alloc: Global,
    c: Option<u32>,
    x: Option<u32>,
    y: Option<u32>,
) -> Result<Boxed<Pure>, NoMemory>
    ensures { IfOk result (λ r. assertion_of r ≡ is_difference (counted c) (counted x) (counted y)) }
{
    let sum = counts(alloc, c, y)?;
    let c = counted(alloc, c)?;
    let x = counted(alloc, x)?;
    let y = counted(alloc, y)?;
    let first = where_at_most(alloc, &x, &y, &c, &zero(alloc))?;
    let second = where_less(alloc, &y, &x, &sum, &x)?;
    or(alloc, first, second)
}
