//! A reduced formula with the counts of its layout.

ghost use Rattle.std.specs.Prelude.{◌≡◌, ◌+◌, ◌*◌, ◌<◌, ◌≤◌, IfOk};
ghost use Rattle.hs_pure.specs.Occurs.{top_of};
ghost use Rattle.hs_reduction.specs.Layout.{width};
ghost use Rattle.hs_counts.specs.Counts.{counts_of};
ghost use Rattle.hs_bag.specs.Counting.{layout_of, LayoutFits};

use crate::layout::Layout;
use hs_counts::Reduced;
use hs_pure::{NoMemory, Pure};
use sqlite_items::Boxed;
use std::alloc::Global;

// A number above those of the formula, and not below `end`.
fn next(end: u32, pure: &Pure) -> Result<u32, NoMemory>
    ensures end { IfOk result (λ n. end ≤ n) }
    ensures pure { IfOk result (λ n. top_of pure.now < n) }
{
    let top = pure.top();
    if top < end {
        return Ok(end);
    }
    match top.checked_add(1) {
        Some(next) => Ok(next),
        None => Err(NoMemory),
    }
}

// A reduced formula with the counts of its layout.
pub(crate) fn with_counts(alloc: Global, l: &Layout, pure: Boxed<Pure>) -> Result<Reduced, NoMemory>
    requires { LayoutFits l.now }
    ensures pure { IfOk result (λ r. r.pure ≡ pure) }
    ensures counts { IfOk result (λ r. r.counts ≡ counts_of (layout_of l.now)) }
    ensures end { IfOk result (λ r. l.now.start + l.now.new + l.now.blocks * width (layout_of l.now) ≤ r.next) }
    ensures below { IfOk result (λ r. top_of pure < r.next) }
{
    let counts = l.listed_counts(alloc)?;
    let next = next(l.end(), pure.get())?;
    Ok(Reduced {
        pure: pure.into_inner(),
        counts,
        next,
    })
}
