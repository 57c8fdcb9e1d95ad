//! A formula in which the equations of bags at its top are put in place.

ghost use Rattle.std.specs.Prelude.{ℕ, ◌≤◌, IfOk, IsTrue};
ghost use Rattle.std.specs.List.{All};
ghost use Rattle.hs_pure.specs.Occurs.{top_of, is_bags_plain};
ghost use Rattle.hs_pure.specs.Stack.{Stack};
ghost use Rattle.hs_pure.specs.Sums.{IsOrdered};
ghost use Rattle.hs_pure.specs.Truth.{TrueAt};
ghost use Rattle.hs_bag_equations.specs.Placing.{AreWorth, BagsSuit, Suits};

use crate::equations::equations;
use crate::put::{copy_boxed, put_boxed};
use crate::stop::Stop;
use hs_pure::{Bag, NoMemory, Pure, Var};
use sqlite_items::{Boxed, Items};
use std::alloc::Global;

/// A formula in which equations of bags were put in place: it follows from the one that they were put in place in.
#[derive(Debug, Drop)]
pub struct InPlace {
    pub pure: Boxed<Pure>,
    /// What each variable that was replaced is worth wherever that one is true.
    pub bags: Items<(Var, Bag)>,
}

// Whether the formula is an equation of a bag with itself.
fn says_nothing(p: &Pure) -> bool {
    let Pure::BagEq(a, b) = p else {
        return false;
    };
    a.same(b)
}

// Adds the members of the conjunction that the formula is, with equations put in place in them.
#[cycle(members)]
fn add_members(
    alloc: Global,
    p: &Pure,
    es: &[(Var, Bag)],
    steps: &mut u64,
    members: &mut Items<Pure>,
) -> Result<(), Stop>
    ensures follows { (s : Stack) → AreWorth s es.now → TrueAt s p.now → All (TrueAt s) members.old → All (TrueAt s) members.new }
    ensures suit { (n : ℕ) → BagsSuit n es.now → Suits n p.now → All (Suits n) members.old → All (Suits n) members.new }
{
    if let Pure::And(ps) = p {
        return add_all_members(alloc, ps.as_slice(), es, steps, members);
    }
    let member = put_boxed(alloc, p, es, steps)?;
    if !says_nothing(member.get()) {
        members.push(member.into_inner())?;
    }
    Ok(())
}

#[cycle(members)]
fn add_all_members(
    alloc: Global,
    ps: &[Pure],
    es: &[(Var, Bag)],
    steps: &mut u64,
    members: &mut Items<Pure>,
) -> Result<(), Stop>
    ensures follows { (s : Stack) → AreWorth s es.now → All (TrueAt s) ps.now → All (TrueAt s) members.old → All (TrueAt s) members.new }
    ensures suit { (n : ℕ) → BagsSuit n es.now → All (Suits n) ps.now → All (Suits n) members.old → All (Suits n) members.new }
{
    for p in ps {
        add_members(alloc, p, es, steps, members)?;
    }
    Ok(())
}

// The conjunction of the members.
fn conjunction(alloc: Global, members: Items<Pure>) -> Result<Boxed<Pure>, NoMemory>
    ensures truth { IfOk result (λ p. (s : Stack) → All (TrueAt s) members → TrueAt s p) }
    ensures suit { IfOk result (λ p. (n : ℕ) → All (Suits n) members → Suits n p) }
{
    if members.len() != 1 {
        return Ok(Boxed::new(alloc, Pure::And(members))?);
    }
    let mut members = members;
    match members.pop() {
        Some(member) => Ok(Boxed::new(alloc, member)?),
        None => Ok(Boxed::new(alloc, Pure::And(members))?),
    }
}

// The formula with equations put in place.
fn put_in_place(alloc: Global, p: &Pure, es: &[(Var, Bag)], steps: u64) -> Result<Boxed<Pure>, Stop>
    ensures follows { IfOk result (λ r. (s : Stack) → AreWorth s es.now → TrueAt s p.now → TrueAt s r) }
    ensures suit { IfOk result (λ r. (n : ℕ) → BagsSuit n es.now → Suits n p.now → Suits n r) }
{
    let mut members = Items::new(alloc);
    let mut steps = steps;
    add_members(alloc, p, es, &mut steps, &mut members)?;
    Ok(conjunction(alloc, members)?)
}

/// A formula that is true wherever `p` is, in which equations of bag variables at the top of `p` are put in place. At
/// most `steps` bags are looked at to find them, and as many to put them in place: where these don't suffice, fewer
/// equations are put in place, or none.
pub fn placed(alloc: Global, p: &Pure, steps: u64) -> Result<InPlace, NoMemory>
    requires ordered { IsOrdered p.now }
    requires plain { IsTrue (is_bags_plain p.now) }
    ensures follows { IfOk result (λ r. (s : Stack) → TrueAt s p.now → TrueAt s r.pure) }
    ensures worth { IfOk result (λ r. (s : Stack) → TrueAt s p.now → AreWorth s r.bags) }
    ensures plain { IfOk result (λ r. IsTrue (is_bags_plain r.pure)) }
    ensures ordered { IfOk result (λ r. IsOrdered r.pure) }
    ensures below { IfOk result (λ r. top_of r.pure ≤ top_of p.now) }
{
    let bags = equations(alloc, p, steps)?;
    match put_in_place(alloc, p, bags.as_slice(), steps) {
        Ok(pure) => Ok(InPlace { pure, bags }),
        Err(Stop::Spent) => Ok(InPlace {
            pure: copy_boxed(alloc, p)?,
            bags: Items::new(alloc),
        }),
        Err(Stop::Memory) => Err(NoMemory),
    }
}
