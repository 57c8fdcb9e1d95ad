//! Bags that make a formula true, from a solution of its reduction.

ghost use Rattle.std.specs.Prelude.{IfOk, IsErrOf};
ghost use Rattle.hs_pure.specs.Eval.{stack_of};
ghost use Rattle.hs_pure.specs.Truth.{TrueAt};
ghost use Rattle.hs_counts.specs.Counts.{HasWideElement, BagsRise};
ghost use Rattle.hs_counts.specs.declared.rebuild.RebuildError.TheVariants.{Wide};
ghost use Rattle.hs_bag.specs.Promise.{IsReduction};

use hs_counts::{RebuildError, Reduced, rebuild_bags};
use hs_pure::{Pure, Valuation};
use std::alloc::Global;

/// Values that make `f` true, from values that make its reduction true. `Wide` comes only where the value of an element
/// passes 128 bits.
pub fn rebuild(
    alloc: Global,
    f: &Pure,
    fresh: u32,
    r: &Reduced,
    v: &Valuation,
) -> Result<Valuation, RebuildError>
    requires reduction { IsReduction f.now fresh r.now }
    requires solution { TrueAt (stack_of v.now) r.now.pure }
    ensures solution { IfOk result (λ w. TrueAt (stack_of w) f.now) }
    ensures rise { IfOk result BagsRise }
    ensures wide { IsErrOf result Wide → HasWideElement (stack_of v.now) r.now.counts }
{
    rebuild_bags(alloc, r.counts.as_slice(), v)
}
