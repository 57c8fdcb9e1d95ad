//! Bags in the place of bag variables.

ghost use Rattle.std.specs.Prelude.{◌≡◌, map, IfOk};
ghost use Rattle.hs_pure.specs.Assertion.{assertion_of, bag_term_of};
ghost use Rattle.hs_bag_equations.specs.Placing.{bag_for, put_bags, put_in_place};

use crate::stop::{Stop, charge};
use hs_pure::{Bag, NoMemory, Pure, Var};
use sqlite_items::{Boxed, Items};
use std::alloc::Global;

// How many bags a bag is built of, itself among them.
pub(crate) fn size(b: &Bag) -> u64 {
    match b {
        Bag::Empty => 1,
        Bag::Name(_) => 1,
        Bag::One(_) => 1,
        Bag::Union(a, b) => joined_size(size(a.get()), size(b.get())),
        Bag::Inter(a, b) => joined_size(size(a.get()), size(b.get())),
        Bag::Diff(a, b) => joined_size(size(a.get()), size(b.get())),
    }
}

fn joined_size(a: u64, b: u64) -> u64 {
    a.saturating_add(b).saturating_add(1)
}

// The bag that stands for a variable.
fn bag_for(alloc: Global, v: Var, es: &[(Var, Bag)], steps: &mut u64) -> Result<Bag, Stop>
    ensures { IfOk result (λ r. bag_term_of r ≡ bag_for es.now v) }
{
    charge(steps, es.len() as u64)?;
    for e in es {
        if e.0 == v {
            charge(steps, size(&e.1))?;
            return Ok(e.1.copy(alloc)?);
        }
    }
    Ok(Bag::Name(v))
}

// The bag with the variables of equations replaced.
#[cycle(put_bag)]
fn put_bag(alloc: Global, b: &Bag, es: &[(Var, Bag)], steps: &mut u64) -> Result<Bag, Stop>
    ensures { IfOk result (λ r. bag_term_of r ≡ put_bags es.now (bag_term_of b.now)) }
{
    charge(steps, 1)?;
    match b {
        Bag::Empty => Ok(Bag::Empty),
        Bag::Name(v) => bag_for(alloc, *v, es, steps),
        Bag::One(a) => Ok(Bag::One(a.copy(alloc)?)),
        Bag::Union(a, b) => {
            let a = put_boxed_bag(alloc, a.get(), es, steps)?;
            let b = put_boxed_bag(alloc, b.get(), es, steps)?;
            Ok(Bag::Union(a, b))
        }
        Bag::Inter(a, b) => {
            let a = put_boxed_bag(alloc, a.get(), es, steps)?;
            let b = put_boxed_bag(alloc, b.get(), es, steps)?;
            Ok(Bag::Inter(a, b))
        }
        Bag::Diff(a, b) => {
            let a = put_boxed_bag(alloc, a.get(), es, steps)?;
            let b = put_boxed_bag(alloc, b.get(), es, steps)?;
            Ok(Bag::Diff(a, b))
        }
    }
}

// On the heap, so that the callers drop it by one call and not case by case.
#[cycle(put_bag)]
pub(crate) fn put_boxed_bag(
    alloc: Global,
    b: &Bag,
    es: &[(Var, Bag)],
    steps: &mut u64,
) -> Result<Boxed<Bag>, Stop>
    ensures { IfOk result (λ r. bag_term_of r ≡ put_bags es.now (bag_term_of b.now)) }
{
    Ok(Boxed::new(alloc, put_bag(alloc, b, es, steps)?)?)
}

fn put_two(
    alloc: Global,
    a: &Bag,
    b: &Bag,
    es: &[(Var, Bag)],
    steps: &mut u64,
) -> Result<(Bag, Bag), Stop>
    ensures first { IfOk result (λ r. bag_term_of r.0 ≡ put_bags es.now (bag_term_of a.now)) }
    ensures second { IfOk result (λ r. bag_term_of r.1 ≡ put_bags es.now (bag_term_of b.now)) }
{
    let first = put_boxed_bag(alloc, a, es, steps)?;
    let second = put_bag(alloc, b, es, steps)?;
    Ok((first.into_inner(), second))
}

pub(crate) fn copy_boxed(alloc: Global, p: &Pure) -> Result<Boxed<Pure>, NoMemory>
    ensures { IfOk result (λ r. r ≡ p.now) }
{
    Ok(Boxed::new(alloc, p.copy(alloc)?)?)
}

// The formula with the variables of equations replaced, outside of quantifiers.
#[cycle(put)]
fn put(alloc: Global, p: &Pure, es: &[(Var, Bag)], steps: &mut u64) -> Result<Pure, Stop>
    ensures { IfOk result (λ r. assertion_of r ≡ put_in_place es.now (assertion_of p.now)) }
{
    match p {
        Pure::BagEq(a, b) => {
            let (a, b) = put_two(alloc, a, b, es, steps)?;
            Ok(Pure::BagEq(a, b))
        }
        Pure::Subset(a, b) => {
            let (a, b) = put_two(alloc, a, b, es, steps)?;
            Ok(Pure::Subset(a, b))
        }
        Pure::Member(a, b) => {
            let a = a.copy(alloc)?;
            Ok(Pure::Member(a, put_bag(alloc, b, es, steps)?))
        }
        Pure::AllOf(u, b, q) => {
            let q = copy_boxed(alloc, q.get())?;
            Ok(Pure::AllOf(*u, put_bag(alloc, b, es, steps)?, q))
        }
        Pure::Not(q) => Ok(Pure::Not(put_boxed(alloc, q.get(), es, steps)?)),
        Pure::And(ps) => Ok(Pure::And(put_all(alloc, ps.as_slice(), es, steps)?)),
        Pure::Or(ps) => Ok(Pure::Or(put_all(alloc, ps.as_slice(), es, steps)?)),
        Pure::Eq(_, _)
        | Pure::Lt(_, _)
        | Pure::Le(_, _)
        | Pure::Divides(_, _)
        | Pure::Exists(_, _)
        | Pure::Forall(_, _) => Ok(p.copy(alloc)?),
    }
}

// On the heap, so that the callers drop it by one call and not case by case.
#[cycle(put)]
pub(crate) fn put_boxed(
    alloc: Global,
    p: &Pure,
    es: &[(Var, Bag)],
    steps: &mut u64,
) -> Result<Boxed<Pure>, Stop>
    ensures { IfOk result (λ r. assertion_of r ≡ put_in_place es.now (assertion_of p.now)) }
{
    Ok(Boxed::new(alloc, put(alloc, p, es, steps)?)?)
}

#[cycle(put)]
fn put_all(
    alloc: Global,
    ps: &[Pure],
    es: &[(Var, Bag)],
    steps: &mut u64,
) -> Result<Items<Pure>, Stop>
    ensures { IfOk result (λ all. map assertion_of all ≡ map (λ p. put_in_place es.now (assertion_of p)) ps.now) }
{
    let mut all = Items::new(alloc);
    for p in ps {
        all.push(put(alloc, p, es, steps)?)?;
    }
    Ok(all)
}
