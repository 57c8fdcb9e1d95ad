//! The equations of bag variables at the top of a formula, solved.

ghost use Rattle.std.specs.Prelude.{◌≡◌, ℕ, map, IfOk, IfSome};
ghost use Rattle.std.specs.List.{All};
ghost use Rattle.hs_pure.specs.Assertion.{bag_term_of, name};
ghost use Rattle.hs_pure.specs.Stack.{Stack};
ghost use Rattle.hs_pure.specs.Truth.{TrueAt};
ghost use Rattle.hs_bag_equations.specs.Placing.{read, read_put, AreAlike, AreWorth, BagSuits, BagsSuit, Suits};

use crate::put::{put_boxed_bag, size};
use crate::stop::Stop;
use hs_pure::{Bag, NoMemory, Pure, Var};
use sqlite_items::{Boxed, Items};
use std::alloc::Global;

// No bag that is built of more bags stands for a variable.
const LARGEST: u64 = 1000;

// Whether the bag variable `v` occurs in the bag.
fn has(b: &Bag, v: Var) -> bool {
    match b {
        Bag::Empty => false,
        Bag::Name(u) => *u == v,
        Bag::One(_) => false,
        Bag::Union(a, b) => has(a.get(), v) || has(b.get(), v),
        Bag::Inter(a, b) => has(a.get(), v) || has(b.get(), v),
        Bag::Diff(a, b) => has(a.get(), v) || has(b.get(), v),
    }
}

// The variable that the first bag is, where the second has it not.
fn solved_for(a: &Bag, b: &Bag) -> Option<Var>
    ensures { IfSome result (λ v. bag_term_of a.now ≡ name v) }
{
    let Bag::Name(v) = a else {
        return None;
    };
    if has(b, *v) { None } else { Some(*v) }
}

// The equations with those of `last` put in place in their bags.
fn replaced(
    alloc: Global,
    es: &[(Var, Bag)],
    last: &[(Var, Bag)],
    steps: &mut u64,
) -> Result<Items<(Var, Bag)>, Stop>
    ensures { IfOk result (λ r. map read r ≡ map (read_put last.now) es.now) }
{
    let mut all = Items::new(alloc);
    for e in es {
        let b = put_boxed_bag(alloc, &e.1, last, steps)?;
        all.push((e.0, b.into_inner()))?;
    }
    Ok(all)
}

// The equations and one more, which is put in place in the others.
fn extended(
    alloc: Global,
    v: Var,
    b: Boxed<Bag>,
    es: &[(Var, Bag)],
    steps: &mut u64,
) -> Result<Items<(Var, Bag)>, Stop>
    ensures worth { IfOk result (λ r. (s : Stack) → AreAlike s (name v) (bag_term_of b) → AreWorth s es.now → AreWorth s r) }
    ensures suit { IfOk result (λ r. (n : ℕ) → BagSuits n (bag_term_of b) → BagsSuit n es.now → BagsSuit n r) }
{
    let mut last = Items::new(alloc);
    last.push((v, b.into_inner()))?;
    let mut all = replaced(alloc, es, last.as_slice(), steps)?;
    all.append(last)?;
    Ok(all)
}

fn are_small(es: &[(Var, Bag)]) -> bool {
    for e in es {
        if size(&e.1) > LARGEST {
            return false;
        }
    }
    true
}

// Adds that the variable is worth the bag, unless bags grow too large.
fn add(
    alloc: Global,
    v: Var,
    b: Boxed<Bag>,
    found: &mut Items<(Var, Bag)>,
    steps: &mut u64,
) -> Result<(), Stop>
    ensures worth { (s : Stack) → AreAlike s (name v) (bag_term_of b) → AreWorth s found.old → AreWorth s found.new }
    ensures suit { (n : ℕ) → BagSuits n (bag_term_of b) → BagsSuit n found.old → BagsSuit n found.new }
{
    let more = extended(alloc, v, b, found.as_slice(), steps)?;
    if are_small(more.as_slice()) {
        *found = more;
    }
    Ok(())
}

// Solves an equation of two bags, if it is one of a variable.
fn solve(
    alloc: Global,
    a: &Bag,
    b: &Bag,
    found: &mut Items<(Var, Bag)>,
    steps: &mut u64,
) -> Result<(), Stop>
    ensures worth { (s : Stack) → AreAlike s (bag_term_of a.now) (bag_term_of b.now) → AreWorth s found.old → AreWorth s found.new }
    ensures suit { (n : ℕ) → BagSuits n (bag_term_of a.now) → BagSuits n (bag_term_of b.now) → BagsSuit n found.old → BagsSuit n found.new }
{
    let a = put_boxed_bag(alloc, a, found.as_slice(), steps)?;
    let b = put_boxed_bag(alloc, b, found.as_slice(), steps)?;
    if let Some(v) = solved_for(a.get(), b.get()) {
        return add(alloc, v, b, found, steps);
    }
    if let Some(v) = solved_for(b.get(), a.get()) {
        return add(alloc, v, a, found, steps);
    }
    Ok(())
}

// Adds the equations at the top of a formula.
#[cycle(collect)]
fn collect(
    alloc: Global,
    p: &Pure,
    found: &mut Items<(Var, Bag)>,
    steps: &mut u64,
) -> Result<(), Stop>
    ensures worth { (s : Stack) → TrueAt s p.now → AreWorth s found.old → AreWorth s found.new }
    ensures suit { (n : ℕ) → Suits n p.now → BagsSuit n found.old → BagsSuit n found.new }
{
    if let Pure::And(ps) = p {
        return collect_all(alloc, ps.as_slice(), found, steps);
    }
    if let Pure::BagEq(a, b) = p {
        return solve(alloc, a, b, found, steps);
    }
    Ok(())
}

#[cycle(collect)]
fn collect_all(
    alloc: Global,
    ps: &[Pure],
    found: &mut Items<(Var, Bag)>,
    steps: &mut u64,
) -> Result<(), Stop>
    ensures worth { (s : Stack) → All (TrueAt s) ps.now → AreWorth s found.old → AreWorth s found.new }
    ensures suit { (n : ℕ) → All (Suits n) ps.now → BagsSuit n found.old → BagsSuit n found.new }
{
    for p in ps {
        collect(alloc, p, found, steps)?;
    }
    Ok(())
}

// What bag variables are worth wherever the formula is true. None of them occurs in a bag of the list.
pub(crate) fn equations(alloc: Global, p: &Pure, steps: u64) -> Result<Items<(Var, Bag)>, NoMemory>
    ensures worth { IfOk result (λ es. (s : Stack) → TrueAt s p.now → AreWorth s es) }
    ensures suit { IfOk result (λ es. (n : ℕ) → Suits n p.now → BagsSuit n es) }
{
    let mut found = Items::new(alloc);
    let mut steps = steps;
    match collect(alloc, p, &mut found, &mut steps) {
        Ok(()) | Err(Stop::Spent) => Ok(found),
        Err(Stop::Memory) => Err(NoMemory),
    }
}
