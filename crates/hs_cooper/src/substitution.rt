//! A sum in the place of a variable.

ghost use Rattle.std.specs.Prelude.{◌≡◌, ◌↔◌, IfOk, IsErrOf, IsTrue};
ghost use Rattle.hs_pure.specs.Assertion.{assertion_of};
ghost use Rattle.hs_pure.specs.Stack.{Stack, with_value, number_value};
ghost use Rattle.hs_pure.specs.Sums.{LinIsOrdered, IsOrdered};
ghost use Rattle.hs_pure.specs.Truth.{value, TrueAt};
ghost use Rattle.hs_elimination.specs.Linear.{place};
ghost use Rattle.hs_elimination.specs.Normal.{is_simple};
ghost use Rattle.hs_substitute.specs.Substitution.{substituted, HasWideSum};
ghost use Rattle.hs_cooper.specs.declared.stop.Stop.TheVariants.{Atoms, Wide};

use crate::Stop;
use hs_pure::{Lin, Pure, Var};
use hs_substitute::replaced;
use std::alloc::Global;

/// The formula `f` with `term` in the place of `x`. It has neither quantifiers nor bag literals, and the terms of its
/// sums are in order.
///
/// The result is true exactly where `f` is true with what `term` is worth as `x`. It is as simple as `f`, and in order
/// where `term` is. `Wide` comes only where a number of the result passes 128 bits, and `Atoms` never.
pub fn substitute(alloc: Global, f: &Pure, x: Var, term: &Lin) -> Result<Pure, Stop>
    requires simple { IsTrue (is_simple (assertion_of f.now)) }
    requires ordered { IsOrdered f.now }
    ensures exact { IfOk result (λ r. assertion_of r ≡ substituted (place x) term.now (assertion_of f.now)) }
    ensures truth { IfOk result (λ r. (s : Stack) → TrueAt s r ↔ TrueAt (with_value x (number_value (value s term.now)) s) f.now) }
    ensures simple { IfOk result (λ r. IsTrue (is_simple (assertion_of r))) }
    ensures ordered { IfOk result (λ r. LinIsOrdered term.now → IsOrdered r) }
    ensures wide { IsErrOf result Wide → HasWideSum (substituted (place x) term.now (assertion_of f.now)) }
    ensures atoms { ¬ (IsErrOf result Atoms) }
{
    Ok(replaced(alloc, f, x, term)?)
}
