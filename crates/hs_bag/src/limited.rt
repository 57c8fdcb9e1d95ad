//! The plain reduction, which stops where it grows too large.

ghost use Rattle.std.specs.Prelude.{◌≡◌, ◌+◌, ◌<◌, ◌≤◌, ◌^◌, length, IfOk, IsErrOf, IsTrue};
ghost use Rattle.hs_pure.specs.Assertion.{assertion_of};
ghost use Rattle.hs_pure.specs.declared.var.Var.{Var};
ghost use Rattle.hs_pure.specs.Mirror.{is_free_in};
ghost use Rattle.hs_pure.specs.Occurs.{top_of};
ghost use Rattle.hs_reduction.specs.Layout.{layout};
ghost use Rattle.hs_reduction.specs.Instance.{replaced};
ghost use Rattle.hs_reduction.specs.Reduction.{reduction};
ghost use Rattle.hs_counts.specs.Counts.{counts_of};
ghost use Rattle.hs_bag.specs.Counting.{layout_of, LayoutFits};
ghost use Rattle.hs_bag_parts.specs.Reading.{compounds_of};
ghost use Rattle.hs_bag_parts.specs.Size.{comparisons};
ghost use Rattle.hs_bag.specs.Substituting.{ReductionIsWide};
ghost use Rattle.hs_bag.specs.declared.stop.Stop.TheVariants.{Atoms, Wide};

use crate::answer::with_counts;
use crate::laid::{Unlaid, laid};
use crate::layout::Layout;
use crate::stop::Stop;
use hs_bag_parts::Way;
use hs_cooper_forms::Refusal;
use hs_counts::Reduced;
use hs_pure::Pure;
use std::alloc::Global;

// A layout whose reduction has at most `atoms` comparisons, or no counts.
fn small(alloc: Global, f: &Pure, fresh: u32, atoms: u64) -> Result<Layout, Stop>
    requires low { fresh ≤ 2 ^ 31 }
    requires small { atoms ≤ 2 ^ 30 }
    ensures layout { IfOk result (λ l. layout_of l ≡ layout fresh (assertion_of f.now)) }
    ensures blocks { IfOk result (λ l. l.blocks ≡ length l.bags + compounds_of f.now) }
    ensures fits { IfOk result LayoutFits }
    ensures atoms { IsErrOf result Atoms → atoms < comparisons (reduction replaced fresh (assertion_of f.now)) }
    ensures free { IsErrOf result Atoms → (v : Var) × IsTrue (is_free_in v (reduction replaced fresh (assertion_of f.now))) }
    ensures wide { ¬ (IsErrOf result Wide) }
{
    match laid(alloc, f, fresh) {
        Ok(l) => {
            if l.has_counts() && l.comparisons(f, atoms + 1) > atoms {
                Err(Stop::Atoms)
            } else {
                Ok(l)
            }
        }
        Err(Unlaid::Counts) => Err(Stop::Atoms),
        Err(Unlaid::Elements) => Err(Stop::Memory),
        Err(Unlaid::Memory) => Err(Stop::Memory),
    }
}

/// The plain reduction of a formula, whose new numbers begin with `fresh`, which is at most 2^31.
///
/// `Atoms` comes only where it has more than `atoms` comparisons and a free variable, and `Wide` only where a number of
/// it passes 128 bits. Where no bag has a count, it is made however large it is.
pub fn plain(alloc: Global, f: &Pure, fresh: u32, atoms: u64) -> Result<Reduced, Stop>
    requires low { fresh ≤ 2 ^ 31 }
    requires small { atoms ≤ 2 ^ 30 }
    ensures exact { IfOk result (λ r. assertion_of r.pure ≡ reduction replaced fresh (assertion_of f.now)) }
    ensures counts { IfOk result (λ r. r.counts ≡ counts_of (layout fresh (assertion_of f.now))) }
    ensures below { IfOk result (λ r. top_of r.pure < r.next) }
    ensures atoms { IsErrOf result Atoms → atoms < comparisons (reduction replaced fresh (assertion_of f.now)) }
    ensures free { IsErrOf result Atoms → (v : Var) × IsTrue (is_free_in v (reduction replaced fresh (assertion_of f.now))) }
    ensures wide { IsErrOf result Wide → ReductionIsWide replaced fresh (assertion_of f.now) }
{
    let l = small(alloc, f, fresh, atoms)?;
    match l.reduction(alloc, Way::Replaced, f) {
        Ok(pure) => Ok(with_counts(alloc, &l, pure)?),
        Err(Refusal::Wide) => Err(Stop::Wide),
        Err(Refusal::Memory) => Err(Stop::Memory),
    }
}
