//! That the counts of bag variables are counts.

ghost use Rattle.std.specs.Prelude.{◌≡◌, ◌<◌, ◌≤◌, length, IfOk};
ghost use Rattle.hs_pure.specs.Assertion.{assertion_of};
ghost use Rattle.hs_reduction.specs.Layout.{width};
ghost use Rattle.hs_reduction.specs.Reduction.{all_below, equal_counts, is_count, are_counts};
ghost use Rattle.hs_bag.specs.Counting.{layout_of, LayoutFits};

use crate::layout::Layout;
use hs_bag_parts::{and, at_most, equal, not, or, variable, zero};
use hs_pure::{NoMemory, Pure};
use sqlite_items::{Boxed, Items};
use std::alloc::Global;

impl Layout {
    // Where two elements are equal, so are their counts.
    fn equal_counts(
        &self,
        alloc: Global,
        block: u64,
        i: u64,
        j: u64,
    ) -> Result<Boxed<Pure>, NoMemory>
        requires fits { LayoutFits self.now }
        requires block { block ≤ self.now.blocks }
        requires first { i ≤ width (layout_of self.now) }
        requires second { j ≤ width (layout_of self.now) }
        ensures { IfOk result (λ r. assertion_of r ≡ equal_counts (layout_of self.now) block i j) }
    {
        let first = self.element(alloc, i)?;
        let second = self.element(alloc, j)?;
        let is = equal(alloc, &first, &second)?;
        let isnt = not(alloc, is)?;
        let first = variable(alloc, self.count_number(block, i))?;
        let second = variable(alloc, self.count_number(block, j))?;
        let same = equal(alloc, &first, &second)?;
        or(alloc, isnt, same)
    }

    #[tactic(auto, using(crate::proofs::Every::every_push, crate::proofs::Every::every_none, crate::proofs::Every::every_and))]
    fn equal_to_earlier(&self, alloc: Global, block: u64, i: u64) -> Result<Boxed<Pure>, NoMemory>
        requires fits { LayoutFits self.now }
        requires block { block ≤ self.now.blocks }
        requires place { i ≤ width (layout_of self.now) }
        ensures { IfOk result (λ r. assertion_of r ≡ all_below i (equal_counts (layout_of self.now) block i)) }
    {
        let mut parts = Items::new(alloc);
        for j in 0..i {
            let one = self.equal_counts(alloc, block, i, j)?;
            parts.push(one.into_inner())?;
        }
        Ok(Boxed::new(alloc, Pure::And(parts))?)
    }

    fn is_count(&self, alloc: Global, block: u64, i: u64) -> Result<Boxed<Pure>, NoMemory>
        requires fits { LayoutFits self.now }
        requires block { block ≤ self.now.blocks }
        requires place { i ≤ width (layout_of self.now) }
        ensures { IfOk result (λ r. assertion_of r ≡ is_count (layout_of self.now) block i) }
    {
        let count = variable(alloc, self.count_number(block, i))?;
        let natural = at_most(alloc, &zero(alloc), &count)?;
        let equal = self.equal_to_earlier(alloc, block, i)?;
        and(alloc, natural, equal)
    }

    #[tactic(auto, using(crate::proofs::Every::every_push, crate::proofs::Every::every_none, crate::proofs::Every::every_and))]
    fn are_counts(&self, alloc: Global, block: u64) -> Result<Boxed<Pure>, NoMemory>
        requires fits { LayoutFits self.now }
        requires block { block ≤ self.now.blocks }
        ensures { IfOk result (λ r. assertion_of r ≡ are_counts (layout_of self.now) block) }
    {
        let mut parts = Items::new(alloc);
        for i in 0..self.width() {
            let one = self.is_count(alloc, block, i)?;
            parts.push(one.into_inner())?;
        }
        Ok(Boxed::new(alloc, Pure::And(parts))?)
    }

    /// The counts of each bag variable are not negative, and equal elements have equal counts.
    #[tactic(auto, using(crate::proofs::Every::every_push, crate::proofs::Every::every_none, crate::proofs::Every::every_and))]
    pub fn all_are_counts(&self, alloc: Global) -> Result<Boxed<Pure>, NoMemory>
        requires { LayoutFits self.now }
        ensures { IfOk result (λ r. assertion_of r ≡ all_below (length self.now.bags) (are_counts (layout_of self.now))) }
    {
        let mut parts = Items::new(alloc);
        for block in 0..self.bags.len() as u64 {
            let one = self.are_counts(alloc, block)?;
            parts.push(one.into_inner())?;
        }
        Ok(Boxed::new(alloc, Pure::And(parts))?)
    }
}
