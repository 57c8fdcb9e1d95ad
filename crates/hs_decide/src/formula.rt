//! Formulas made of formulas.

ghost use Rattle.std.specs.Prelude.{◌≡◌, [], IfOk};
ghost use Rattle.hs_pure.specs.Assertion.{assertion_of};
ghost use Rattle.hs_pure.specs.declared.pure.Pure.TheVariants.{Or};
ghost use Rattle.hs_decide.specs.Question.{question};

use hs_pure::{NoMemory, Pure};
use sqlite_items::{Boxed, Items};
use std::alloc::Global;

// `a` and not `b`.
pub(crate) fn counterexample(alloc: Global, a: &Pure, b: &Pure) -> Result<Boxed<Pure>, NoMemory>
    ensures { IfOk result (λ r. assertion_of r ≡ question (assertion_of a.now) (assertion_of b.now)) }
{
    let denied = Boxed::new(alloc, b.copy(alloc)?)?;
    let mut members = Items::new(alloc);
    members.push(a.copy(alloc)?)?;
    members.push(Pure::Not(denied))?;
    Ok(Boxed::new(alloc, Pure::And(members))?)
}

// What is false.
pub(crate) fn falsehood(alloc: Global) -> Result<Boxed<Pure>, NoMemory>
    ensures { IfOk result (λ p. p ≡ Or []) }
{
    Ok(Boxed::new(alloc, Pure::Or(Items::new(alloc)))?)
}
