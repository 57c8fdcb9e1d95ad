//! The new numbers of a reduction.

ghost use Rattle.std.specs.Prelude.{◌≡◌, ◌<◌, ◌≤◌, ◌^◌, min, IfOk, IsTrue};
ghost use Rattle.hs_pure.specs.Assertion.{assertion_of};
ghost use Rattle.hs_reduction.specs.Layout.{name_place, lin_place, width, element, count_number};
ghost use Rattle.hs_bag.specs.Counting.{layout_of, number_in, LayoutFits, BlockFits};
ghost use Rattle.hs_bag.specs.Size.{reduction_comparisons};

use hs_bag_parts::{reduction_comparisons, variable};
use hs_cooper_forms::same_lin;
use hs_pure::{Lin, NoMemory, Pure, Var};
use sqlite_items::Items;
use std::alloc::Global;

/// The element terms and bag variables of a formula, and how many new numbers its reduction takes.
#[derive(Debug, Drop)]
pub(crate) struct Layout {
    /// The first new number.
    pub start: u32,
    /// The element terms of the text, each once.
    pub listed: Items<Lin>,
    /// How many new elements follow them, each a variable.
    pub new: u64,
    /// The bag variables, rising.
    pub bags: Items<Var>,
    /// How many blocks of counts there are.
    pub blocks: u64,
}

impl Layout {
    /// How many element terms there are.
    pub fn width(&self) -> u64
        requires { LayoutFits self.now }
        ensures { result ≡ width (layout_of self.now) }
    {
        self.listed.len() as u64 + self.new
    }

    /// How many comparisons the reduction has, or `most` if there are more.
    pub fn comparisons(&self, f: &Pure, most: u64) -> u64
        requires fits { LayoutFits self.now }
        requires most { most ≤ 2 ^ 31 }
        ensures { result ≡ min (reduction_comparisons (layout_of self.now) (assertion_of f.now)) most }
    {
        reduction_comparisons(self.bags.len() as u64, self.width(), f, most)
    }

    /// Whether some bag has a count.
    pub fn has_counts(&self) -> bool
        requires { LayoutFits self.now }
        ensures { IsTrue result → (0 < self.now.blocks) × (0 < width (layout_of self.now)) }
    {
        self.blocks > 0 && self.width() > 0
    }

    /// Where a bag variable stands.
    #[tactic(auto, using(crate::proofs::Places::name_place_here, crate::proofs::Places::name_place_next, crate::proofs::Places::name_place_end))]
    pub fn name_place(&self, v: Var) -> u64
        ensures { result ≡ name_place v self.now.bags }
    {
        let mut place = 0;
        for w in self.bags.as_slice() {
            if *w == v {
                return place;
            }
            place += 1;
        }
        place
    }

    /// Where a sum stands first.
    #[tactic(auto, using(crate::proofs::Places::lin_place_here, crate::proofs::Places::lin_place_next, crate::proofs::Places::lin_place_end))]
    pub fn lin_place(&self, a: &Lin) -> u64
        ensures { result ≡ lin_place a.now self.now.listed }
    {
        let mut place = 0;
        for b in self.listed.as_slice() {
            if same_lin(a, b) {
                return place;
            }
            place += 1;
        }
        place
    }

    /// The number of a count.
    pub fn count_number(&self, block: u64, i: u64) -> u32
        requires fits { LayoutFits self.now }
        requires block { block ≤ self.now.blocks }
        requires place { i ≤ width (layout_of self.now) }
        ensures { result ≡ count_number (layout_of self.now) block i }
    {
        (u64::from(self.start) + self.new + (block * self.width() + i)) as u32
    }

    /// The number of a count, if the bag has a block.
    pub fn number(&self, own: Option<u64>, i: u64) -> Option<u32>
        requires fits { LayoutFits self.now }
        requires block { BlockFits self.now.blocks own }
        requires place { i ≤ width (layout_of self.now) }
        ensures { result ≡ number_in (layout_of self.now) own i }
    {
        match own {
            None => None,
            Some(block) => Some(self.count_number(block, i)),
        }
    }

    /// The element term at a place.
    pub fn element(&self, alloc: Global, i: u64) -> Result<Lin, NoMemory>
        requires fits { LayoutFits self.now }
        requires place { i ≤ width (layout_of self.now) }
        ensures { IfOk result (λ a. a ≡ element (layout_of self.now) i) }
    {
        let listed = self.listed.len() as u64;
        if i < listed {
            self.listed.as_slice()[i as usize].copy(alloc)
        } else {
            variable(alloc, (u64::from(self.start) + (i - listed)) as u32)
        }
    }
}
