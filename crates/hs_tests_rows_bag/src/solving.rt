//! Reductions and their solutions.

ghost use Rattle.std.specs.Prelude.{◌≡◌, ◌≤◌, ◌<◌, ◌^◌, [], false, IfOk, IfSome};
ghost use Rattle.hs_pure.specs.Eval.{stack_of};
ghost use Rattle.hs_pure.specs.Occurs.{top_of, has_bags};
ghost use Rattle.hs_pure.specs.Sums.{IsOrdered};
ghost use Rattle.hs_pure.specs.Truth.{TrueAt};
ghost use Rattle.hs_pure.specs.declared.pure.Pure.TheVariants.{Or};
ghost use Rattle.hs_equations.specs.Finding.{IfRefuted, IsCounter};
ghost use Rattle.hs_bag.specs.Promise.{IsReduction};

use hs_bag::{BagError, Reduced, reduce};
use hs_cooper::Stop;
use hs_equations::{Finding, examine};
use hs_plain::solution;
use hs_pure::{NoMemory, Pure, Valuation};
use hs_tests_formulas::NoRow;
use sqlite_items::{Boxed, Items};
use std::alloc::Global;

// The most atoms of a stage, and steps with rows of equations.
const MOST: u64 = 200_000;

/// A number above all of the formula.
pub fn fresh(f: &Pure) -> Result<u32, NoRow>
    ensures above { IfOk result (λ n. top_of f.now < n) }
    ensures low { IfOk result (λ n. n ≤ 2 ^ 31) }
{
    let top = f.top();
    if top < 1 << 31 {
        Ok(top + 1)
    } else {
        Err(NoRow)
    }
}

/// The copy of a reduction.
pub fn reduction(alloc: Global, f: &Pure, fresh: u32) -> Result<Boxed<Reduced>, BagError>
    requires ordered { IsOrdered f.now }
    requires above { top_of f.now < fresh }
    requires low { fresh ≤ 2 ^ 31 }
    ensures { IfOk result (IsReduction f.now fresh) }
{
    let reduced = Boxed::new(alloc, reduce(alloc, f, fresh)?)?;
    let copy = reduced.get().copy(alloc)?;
    Ok(Boxed::new(alloc, copy)?)
}

// What is false.
fn falsehood(alloc: Global) -> Result<Boxed<Pure>, NoMemory>
    ensures { IfOk result (λ p. p ≡ Or []) }
{
    Ok(Boxed::new(alloc, Pure::Or(Items::new(alloc)))?)
}

// What rows of equations find.
fn examined(alloc: Global, f: &Pure) -> Result<Finding, NoMemory>
    requires no_bags { has_bags f.now ≡ false }
    requires ordered { IsOrdered f.now }
    ensures { IfOk result (λ r. IfRefuted r (IsCounter f.now (Or []))) }
{
    let never = falsehood(alloc)?;
    examine(alloc, f, never.get(), MOST)
}

/// Values that make a formula without bags true, if there are any.
pub fn solved(alloc: Global, f: &Pure) -> Result<Option<Valuation>, Stop>
    requires no_bags { has_bags f.now ≡ false }
    requires ordered { IsOrdered f.now }
    ensures { IfOk result (λ o. IfSome o (λ v. TrueAt (stack_of v) f.now)) }
{
    match examined(alloc, f) {
        Ok(Finding::Refuted(v)) => Ok(Some(v)),
        Ok(Finding::Implied) => Ok(None),
        Ok(Finding::Open) => solution(alloc, f, MOST),
        Err(NoMemory) => Err(Stop::Memory),
    }
}
