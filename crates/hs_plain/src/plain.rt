//! Solutions of formulas.

ghost use Rattle.std.specs.Prelude.{◌≡◌, ◌≤◌, ◌<◌, ◌^◌, false, [], IfOk, IfSome, None, IsErrOf};
ghost use Rattle.hs_pure.specs.Assertion.{assertion_of};
ghost use Rattle.hs_pure.specs.Eval.{stack_of};
ghost use Rattle.hs_pure.specs.Occurs.{has_bags};
ghost use Rattle.hs_pure.specs.Stack.{Stack};
ghost use Rattle.hs_pure.specs.Sums.{IsOrdered};
ghost use Rattle.hs_pure.specs.Truth.{TrueAt};
ghost use Rattle.hs_cooper.specs.declared.stop.Stop.TheVariants.{Atoms, Wide};
ghost use Rattle.hs_plain.specs.Size.{plain_size};
ghost use Rattle.hs_plain.specs.Span.{plain_values, PlainIsWide};

use crate::solve::solve;
use crate::variables::free_variables;
use hs_cooper::Stop;
use hs_pure::{Pure, Valuation};
use hs_quantifiers::without_quantifiers;
use std::alloc::Global;

/// The plain values of a formula, which make it true, or none where no stack does. It has no bag literals, the terms of its sums are in
/// order, and `atoms` is at most 2^30.
///
/// `Atoms` comes only where a stage of the plain decision has more than `atoms` atoms, `Wide` only where a number of it
/// passes 128 bits, and `Memory` where there is none.
pub fn solution(alloc: Global, question: &Pure, atoms: u64) -> Result<Option<Valuation>, Stop>
    requires no_bags { has_bags question.now ≡ false }
    requires ordered { IsOrdered question.now }
    requires small { atoms ≤ 2 ^ 30 }
    ensures found { IfOk result (λ o. IfSome o (λ v. TrueAt (stack_of v) question.now)) }
    ensures values { IfOk result (λ o. IfSome o (λ v. (v.bags ≡ []) × (stack_of v ≡ plain_values (assertion_of question.now)))) }
    ensures none { IfOk result (λ o. o ≡ None → (s : Stack) → ¬ (TrueAt s question.now)) }
    ensures atoms { IsErrOf result Atoms → atoms < plain_size (assertion_of question.now) }
    ensures wide { IsErrOf result Wide → PlainIsWide (assertion_of question.now) }
{
    let plain = without_quantifiers(alloc, question, atoms)?;
    let Ok(variables) = free_variables(alloc, question) else {
        return Err(Stop::Memory);
    };
    solve(alloc, variables.as_slice(), &plain, atoms)
}
