//! Formulas with bags, reduced to formulas on numbers.

ghost use Rattle.std.specs.Prelude.{◌≡◌, ◌↔◌, ◌+◌, ◌<◌, ◌≤◌, ◌^◌, false, length, IfOk, IsErrOf};
ghost use Rattle.hs_pure.specs.Assertion.{assertion_of};
ghost use Rattle.hs_pure.specs.Occurs.{top_of, is_bags_plain};
ghost use Rattle.hs_pure.specs.Sums.{IsOrdered};
ghost use Rattle.hs_reduction.specs.Layout.{layout, after};
ghost use Rattle.hs_reduction.specs.Instance.{Instance, stated};
ghost use Rattle.hs_reduction.specs.Reduction.{reduction};
ghost use Rattle.hs_bag.specs.Counting.{layout_of, LayoutFits};
ghost use Rattle.hs_bag.specs.Promise.{IsReduction};
ghost use Rattle.hs_bag_parts.specs.Reading.{compounds_of};
ghost use Rattle.hs_bag.specs.declared.error.BagError.TheVariants.{UnderQuantifier, Numbers};

use crate::answer::with_counts;
use crate::error::BagError;
use crate::laid::{Unlaid, laid};
use crate::layout::Layout;
use hs_bag_parts::Way;
use hs_cooper_forms::Refusal;
use hs_counts::Reduced;
use hs_pure::{NoMemory, Pure};
use sqlite_items::Boxed;
use std::alloc::Global;

// The reduction whose instances form no product. No number of it passes 128 bits.
fn stated(alloc: Global, l: &Layout, f: &Pure) -> Result<Boxed<Pure>, NoMemory>
    requires ordered { IsOrdered f.now }
    requires above { top_of f.now < l.now.start }
    requires layout { layout_of l.now ≡ layout l.now.start (assertion_of f.now) }
    requires blocks { l.now.blocks ≡ length l.now.bags + compounds_of f.now }
    requires fits { LayoutFits l.now }
    ensures { IfOk result (λ r. assertion_of r ≡ reduction stated l.now.start (assertion_of f.now)) }
{
    match l.reduction(alloc, Way::Stated, f) {
        Ok(pure) => Ok(pure),
        Err(Refusal::Memory) => Err(NoMemory),
        Err(Refusal::Wide) => unreachable!(),
    }
}

// The reduction whose instances replace, or else the one whose instances form no product.
fn either_way(alloc: Global, l: &Layout, f: &Pure) -> Result<Boxed<Pure>, NoMemory>
    requires ordered { IsOrdered f.now }
    requires above { top_of f.now < l.now.start }
    requires layout { layout_of l.now ≡ layout l.now.start (assertion_of f.now) }
    requires blocks { l.now.blocks ≡ length l.now.bags + compounds_of f.now }
    requires fits { LayoutFits l.now }
    ensures { IfOk result (λ r. (way : Instance) × (assertion_of r ≡ reduction way l.now.start (assertion_of f.now))) }
{
    match l.reduction(alloc, Way::Replaced, f) {
        Ok(pure) => Ok(pure),
        Err(Refusal::Memory) => Err(NoMemory),
        Err(Refusal::Wide) => stated(alloc, l, f),
    }
}

// The layout, if its new numbers are few enough.
fn laid_out(alloc: Global, f: &Pure, fresh: u32) -> Result<Layout, BagError>
    requires { fresh ≤ 2 ^ 31 }
    ensures layout { IfOk result (λ l. layout_of l ≡ layout fresh (assertion_of f.now)) }
    ensures blocks { IfOk result (λ l. l.blocks ≡ length l.bags + compounds_of f.now) }
    ensures fits { IfOk result LayoutFits }
    ensures under { ¬ (IsErrOf result UnderQuantifier) }
    ensures numbers { IsErrOf result Numbers → fresh + 2 ^ 30 < after (layout fresh (assertion_of f.now)) (assertion_of f.now) }
{
    match laid(alloc, f, fresh) {
        Ok(l) => Ok(l),
        Err(Unlaid::Counts) => Err(BagError::Numbers),
        Err(Unlaid::Elements) => Err(BagError::Numbers),
        Err(Unlaid::Memory) => Err(BagError::Memory),
    }
}

/// A formula without bags that stands for `f`, whose sums are in order. `fresh` is above all numbers of `f` and at most
/// 2^31.
///
/// `UnderQuantifier` comes exactly where a bag literal stands under a quantifier or an `AllOf`, and `Numbers` only where
/// the plain reduction takes more than 2^30 new numbers. No number passes 128 bits, so `Memory` is want of memory alone.
pub fn reduce(alloc: Global, f: &Pure, fresh: u32) -> Result<Reduced, BagError>
    requires ordered { IsOrdered f.now }
    requires above { top_of f.now < fresh }
    requires low { fresh ≤ 2 ^ 31 }
    ensures reduction { IfOk result (λ r. IsReduction f.now fresh r) }
    ensures under { IsErrOf result UnderQuantifier ↔ (is_bags_plain f.now ≡ false) }
    ensures numbers { IsErrOf result Numbers → fresh + 2 ^ 30 < after (layout fresh (assertion_of f.now)) (assertion_of f.now) }
{
    if !f.bags_plain() {
        return Err(BagError::UnderQuantifier);
    }
    let l = laid_out(alloc, f, fresh)?;
    let pure = either_way(alloc, &l, f)?;
    Ok(with_counts(alloc, &l, pure)?)
}
