//! The layout of a formula, if its new numbers are few enough.

ghost use Rattle.std.specs.Prelude.{◌≡◌, ◌+◌, ◌*◌, ◌<◌, ◌≤◌, ◌^◌, [], length, min, IfOk, IsErrOf};
ghost use Rattle.hs_pure.specs.Assertion.{assertion_of};
ghost use Rattle.hs_reduction.specs.Layout.{layout, width, after};
ghost use Rattle.hs_bag.specs.Counting.{layout_of, LayoutFits};
ghost use Rattle.hs_bag_parts.specs.Reading.{terms_of, names_of, compounds_of, denied_of};
ghost use Rattle.hs_bag.specs.Size.{HasCounts};
ghost use Rattle.hs_bag.specs.declared.laid.Unlaid.TheVariants.{Counts, Elements, Memory};

use crate::layout::Layout;
use hs_bag_parts::{add_names, add_terms, count_compounds, count_denied};
use hs_pure::{NoMemory, Pure};
use sqlite_items::Items;
use std::alloc::Global;

// How many numbers may be new.
const MOST: u64 = 1 << 30;

/// Why a formula has no layout.
#[derive(Clone, Copy, Debug, PartialEq, Eq)]
pub(crate) enum Unlaid {
    /// There are more than 2^30 new numbers, counts among them.
    Counts,
    /// There are more than 2^30 new elements, and no counts.
    Elements,
    /// There was no memory.
    Memory,
}

impl From<NoMemory> for Unlaid {
    ghost from_gives = { λ _ e. e ≡ Memory };

    fn from(_: NoMemory) -> Unlaid {
        Unlaid::Memory
    }
}

#[tactic(auto, using(crate::proofs::Limits::row_above, crate::proofs::Limits::row_beside))]
// Whether the numbers are few enough, where `new` and `compounds` are right unless they are 2^31 or more.
fn check(listed: u64, new: u64, bags: u64, compounds: u64) -> Result<(), Unlaid>
    requires listed { listed < 2 ^ 63 }
    requires bags { bags < 2 ^ 63 }
    requires new { new ≤ 2 ^ 31 }
    requires compounds { compounds ≤ 2 ^ 31 }
    ensures counts { IsErrOf result Counts → 2 ^ 30 < new + (bags + compounds) * (listed + new) }
    ensures blocks_there { IsErrOf result Counts → 0 < bags + compounds }
    ensures width_there { IsErrOf result Counts → 0 < listed + new }
    ensures elements { IsErrOf result Elements → 2 ^ 30 < new }
    ensures few { IfOk result (λ _. new + (bags + compounds) * (listed + new) ≤ 2 ^ 30) }
    ensures width { IfOk result (λ _. listed + new < 2 ^ 30) }
    ensures blocks { IfOk result (λ _. bags + compounds < 2 ^ 31) }
{
    let width = listed + new;
    let blocks = bags + compounds;
    if blocks == 0 {
        return if new > MOST {
            Err(Unlaid::Elements)
        } else if width < MOST {
            Ok(())
        } else {
            Err(Unlaid::Memory)
        };
    }
    if width == 0 {
        return if blocks < 2 * MOST {
            Ok(())
        } else {
            Err(Unlaid::Memory)
        };
    }
    if blocks > MOST {
        return Err(Unlaid::Counts);
    }
    if width > MOST {
        return Err(Unlaid::Counts);
    }
    if new + blocks * width > MOST {
        Err(Unlaid::Counts)
    } else if width < MOST {
        Ok(())
    } else {
        Err(Unlaid::Memory)
    }
}

/// The layout of a formula whose new numbers begin with `start`. `Counts` and `Elements` come only where
/// they are more than 2^30.
pub(crate) fn laid(alloc: Global, f: &Pure, start: u32) -> Result<Layout, Unlaid>
    requires { start ≤ 2 ^ 31 }
    ensures layout { IfOk result (λ l. layout_of l ≡ layout start (assertion_of f.now)) }
    ensures blocks { IfOk result (λ l. l.blocks ≡ length l.bags + compounds_of f.now) }
    ensures fits { IfOk result LayoutFits }
    ensures there { IsErrOf result Counts → HasCounts (layout start (assertion_of f.now)) (assertion_of f.now) }
    ensures counts { IsErrOf result Counts → start + 2 ^ 30 < after (layout start (assertion_of f.now)) (assertion_of f.now) }
    ensures elements { IsErrOf result Elements → start + 2 ^ 30 < after (layout start (assertion_of f.now)) (assertion_of f.now) }
{
    let mut listed = Items::new(alloc);
    add_terms(alloc, &mut listed, f)?;
    let mut bags = Vec::new(alloc);
    add_names(&mut bags, f)?;
    let new = count_denied(true, f);
    let compounds = count_compounds(f);
    check(listed.len() as u64, new, bags.len() as u64, compounds)?;
    let blocks = bags.len() as u64 + compounds;
    Ok(Layout {
        start,
        listed,
        new,
        bags: Items::from_vec(bags),
        blocks,
    })
}
