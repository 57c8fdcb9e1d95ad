//! A sum in the place of a variable of a formula.

ghost use Rattle.std.specs.Prelude.{◌≡◌, ◌↔◌, map, false, IfOk, IsErrOf, IsTrue};
ghost use Rattle.std.specs.List.{Contains};
ghost use Rattle.hs_pure.specs.declared.pure.Pure.{Pure};
ghost use Rattle.hs_pure.specs.Assertion.{assertion_of};
ghost use Rattle.hs_pure.specs.Stack.{Stack, with_value, number_value};
ghost use Rattle.hs_pure.specs.Sums.{LinIsOrdered, IsOrdered};
ghost use Rattle.hs_pure.specs.Truth.{value, TrueAt};
ghost use Rattle.hs_elimination.specs.Linear.{place};
ghost use Rattle.hs_elimination.specs.Normal.{is_simple};
ghost use Rattle.hs_substitute.specs.Substitution.{substituted, HasWideSum};
ghost use Rattle.hs_cooper_forms.specs.declared.refusal.Refusal.TheVariants.{Wide};

use crate::linear::substitute_lin;
use hs_cooper_forms::Refusal;
use hs_pure::{Lin, Pure, Var};
use sqlite_items::{Boxed, Items};
use std::alloc::Global;

/// The formula `f` with `term` in the place of `x`. It has neither quantifiers nor bag literals, and the terms of its
/// sums are in order.
///
/// The result is true exactly where `f` is true with what `term` is worth as `x`. It is as simple as `f`, and in order
/// where `term` is. `Wide` comes only where a number of the result passes 128 bits.
pub fn replaced(alloc: Global, f: &Pure, x: Var, term: &Lin) -> Result<Pure, Refusal>
    requires simple { IsTrue (is_simple (assertion_of f.now)) }
    requires ordered { IsOrdered f.now }
    ensures exact { IfOk result (λ r. assertion_of r ≡ substituted (place x) term.now (assertion_of f.now)) }
    ensures truth { IfOk result (λ r. (s : Stack) → TrueAt s r ↔ TrueAt (with_value x (number_value (value s term.now)) s) f.now) }
    ensures simple { IfOk result (λ r. IsTrue (is_simple (assertion_of r))) }
    ensures ordered { IfOk result (λ r. LinIsOrdered term.now → IsOrdered r) }
    ensures wide { IsErrOf result Wide → HasWideSum (substituted (place x) term.now (assertion_of f.now)) }
{
    let r = replace(alloc, f, x, term)?;
    Ok(r)
}

#[cycle(replacing)]
fn replace(alloc: Global, f: &Pure, x: Var, u: &Lin) -> Result<Pure, Refusal>
    ensures exact { IfOk result (λ r. assertion_of r ≡ substituted (place x) u.now (assertion_of f.now)) }
    ensures wide { IsErrOf result Wide → HasWideSum (substituted (place x) u.now (assertion_of f.now)) }
{
    match f {
        Pure::Eq(a, b) => {
            let a = substitute_lin(alloc, a, x, u)?;
            Ok(Pure::Eq(a, substitute_lin(alloc, b, x, u)?))
        }
        Pure::Lt(a, b) => {
            let a = substitute_lin(alloc, a, x, u)?;
            Ok(Pure::Lt(a, substitute_lin(alloc, b, x, u)?))
        }
        Pure::Le(a, b) => {
            let a = substitute_lin(alloc, a, x, u)?;
            Ok(Pure::Le(a, substitute_lin(alloc, b, x, u)?))
        }
        Pure::Divides(d, a) => Ok(Pure::Divides(*d, substitute_lin(alloc, a, x, u)?)),
        Pure::Not(p) => {
            let p = replace(alloc, p.get(), x, u)?;
            Ok(Pure::Not(Boxed::new(alloc, p)?))
        }
        Pure::And(ps) => Ok(Pure::And(replace_all(alloc, ps.as_slice(), x, u)?)),
        Pure::Or(ps) => Ok(Pure::Or(replace_all(alloc, ps.as_slice(), x, u)?)),
        Pure::BagEq(_, _)
        | Pure::Subset(_, _)
        | Pure::Member(_, _)
        | Pure::AllOf(_, _, _)
        | Pure::Exists(_, _)
        | Pure::Forall(_, _) => Ok(f.copy(alloc)?),
    }
}

#[cycle(replacing)]
fn replace_all(alloc: Global, fs: &[Pure], x: Var, u: &Lin) -> Result<Items<Pure>, Refusal>
    ensures exact { IfOk result (λ all. map assertion_of all ≡ map (λ f. substituted (place x) u.now (assertion_of f)) fs.now) }
    ensures wide { IsErrOf result Wide → ((f : Pure) × (Contains fs.now f × HasWideSum (substituted (place x) u.now (assertion_of f)))) }
{
    let mut all = Items::new(alloc);
    for f in fs {
        let member = replace(alloc, f, x, u)?;
        all.push(member)?;
    }
    Ok(all)
}
