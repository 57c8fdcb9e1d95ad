//! Quantifiers, eliminated innermost first.

ghost use Rattle.std.specs.Prelude.{◌≡◌, ◌≤◌, ◌<◌, ◌^◌, false, map, IfOk, IsErrOf, IsTrue};
ghost use Rattle.std.specs.List.{All, Contains};
ghost use Rattle.hs_pure.specs.declared.pure.Pure.{Pure};
ghost use Rattle.hs_pure.specs.Assertion.{assertion_of, negation};
ghost use Rattle.hs_pure.specs.Occurs.{has_bags};
ghost use Rattle.hs_pure.specs.Sums.{IsOrdered};
ghost use Rattle.hs_elimination.specs.Normal.{is_simple};
ghost use Rattle.hs_elimination.specs.Elimination.{without_variable};
ghost use Rattle.hs_elimination.specs.Decided.{without_quantifiers};
ghost use Rattle.hs_cooper.specs.declared.stop.Stop.TheVariants.{Atoms, Wide};
ghost use Rattle.hs_quantifiers.specs.Size.{stage_size, quantifier_size};
ghost use Rattle.hs_quantifiers.specs.Span.{HasWideStages, HasWideQuantifiers};

use crate::formula::{copied, denial};
use hs_cooper::{Stop, eliminate};
use hs_pure::{Pure, Var};
use sqlite_items::Items;
use std::alloc::Global;

// What says that some integer, as `u`, makes `p` true.
fn for_some(alloc: Global, u: Var, p: Pure, atoms: u64) -> Result<Pure, Stop>
    requires simple { IsTrue (is_simple (assertion_of p)) }
    requires ordered { IsOrdered p }
    requires small { atoms ≤ 2 ^ 30 }
    ensures exact { IfOk result (λ r. assertion_of r ≡ without_variable u (assertion_of p)) }
    ensures atoms { IsErrOf result Atoms → atoms < stage_size u (assertion_of p) }
    ensures wide { IsErrOf result Wide → HasWideStages u (assertion_of p) }
{
    eliminate(alloc, u, &p, atoms)
}

// What says that each integer does: none makes its denial true.
fn for_each(alloc: Global, u: Var, p: Pure, atoms: u64) -> Result<Pure, Stop>
    requires simple { IsTrue (is_simple (assertion_of p)) }
    requires ordered { IsOrdered p }
    requires small { atoms ≤ 2 ^ 30 }
    ensures exact { IfOk result (λ r. assertion_of r ≡ negation (without_variable u (negation (assertion_of p)))) }
    ensures atoms { IsErrOf result Atoms → atoms < stage_size u (negation (assertion_of p)) }
    ensures wide { IsErrOf result Wide → HasWideStages u (negation (assertion_of p)) }
{
    let denied = denial(alloc, p)?;
    let some = for_some(alloc, u, denied, atoms)?;
    denial(alloc, some)
}

/// The same formula without quantifiers, which are eliminated innermost first. It has no bag literals, the terms of its
/// sums are in order, and `atoms` is at most 2^30.
///
/// `Atoms` comes only where a stage has more than `atoms` atoms, `Wide` only where a number of one passes 128 bits, and
/// `Memory` where there is none.
#[cycle(quantifiers)]
pub fn without_quantifiers(alloc: Global, p: &Pure, atoms: u64) -> Result<Pure, Stop>
    requires no_bags { has_bags p.now ≡ false }
    requires ordered { IsOrdered p.now }
    requires small { atoms ≤ 2 ^ 30 }
    ensures exact { IfOk result (λ r. assertion_of r ≡ without_quantifiers (assertion_of p.now)) }
    ensures atoms { IsErrOf result Atoms → atoms < quantifier_size (assertion_of p.now) }
    ensures wide { IsErrOf result Wide → HasWideQuantifiers (assertion_of p.now) }
{
    match p {
        Pure::Not(p) => {
            let inner = without_quantifiers(alloc, p.get(), atoms)?;
            denial(alloc, inner)
        }
        Pure::And(ps) => Ok(Pure::And(all_without(alloc, ps.as_slice(), atoms)?)),
        Pure::Or(ps) => Ok(Pure::Or(all_without(alloc, ps.as_slice(), atoms)?)),
        Pure::Exists(u, p) => {
            let inner = without_quantifiers(alloc, p.get(), atoms)?;
            for_some(alloc, *u, inner, atoms)
        }
        Pure::Forall(u, p) => {
            let inner = without_quantifiers(alloc, p.get(), atoms)?;
            for_each(alloc, *u, inner, atoms)
        }
        Pure::Eq(_, _)
        | Pure::Lt(_, _)
        | Pure::Le(_, _)
        | Pure::Divides(_, _)
        | Pure::BagEq(_, _)
        | Pure::Subset(_, _)
        | Pure::Member(_, _)
        | Pure::AllOf(_, _, _) => copied(alloc, p),
    }
}

#[cycle(quantifiers)]
fn all_without(alloc: Global, ps: &[Pure], atoms: u64) -> Result<Items<Pure>, Stop>
    requires no_bags { All (λ p. has_bags p ≡ false) ps.now }
    requires ordered { All IsOrdered ps.now }
    requires small { atoms ≤ 2 ^ 30 }
    ensures exact { IfOk result (λ all. map assertion_of all ≡ map (λ p. without_quantifiers (assertion_of p)) ps.now) }
    ensures atoms { IsErrOf result Atoms → (p : Pure) × (Contains ps.now p × (atoms < quantifier_size (assertion_of p))) }
    ensures wide { IsErrOf result Wide → (p : Pure) × (Contains ps.now p × HasWideQuantifiers (assertion_of p)) }
{
    let mut all = Items::new(alloc);
    for p in ps {
        let member = without_quantifiers(alloc, p, atoms)?;
        all.push(member)?;
    }
    Ok(all)
}
