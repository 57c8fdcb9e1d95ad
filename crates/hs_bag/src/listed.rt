//! The counts of bag variables, listed.

ghost use Rattle.std.specs.Prelude.{◌≡◌, ◌++◌, ◌<◌, ◌≤◌, IfOk, OnOk};
ghost use Rattle.hs_reduction.specs.Layout.{number_variable, name_place, width, element, count_number};
ghost use Rattle.hs_counts.specs.Counts.{block_counts, counts_of};
ghost use Rattle.hs_bag.specs.Counting.{layout_of, LayoutFits};

use crate::layout::Layout;
use hs_counts::Count;
use hs_pure::{NoMemory, Var};
use sqlite_items::Items;
use std::alloc::Global;

impl Layout {
    // The count of a block at an element term.
    fn count_at(&self, alloc: Global, of: Var, block: u64, i: u64) -> Result<Count, NoMemory>
        requires fits { LayoutFits self.now }
        requires block { block ≤ self.now.blocks }
        requires place { i ≤ width (layout_of self.now) }
        ensures { IfOk result (λ c. c ≡ record { of = of; element = element (layout_of self.now) i; count = number_variable (count_number (layout_of self.now) block i) }) }
    {
        let number = self.count_number(block, i);
        Ok(Count {
            of,
            element: self.element(alloc, i)?,
            count: Var { number, bag: false },
        })
    }

    #[tactic(auto, using(crate::proofs::Blocks::name_fits))]
    fn push_counts(&self, alloc: Global, counts: &mut Items<Count>, of: Var) -> Result<(), NoMemory>
        requires { LayoutFits self.now }
        ensures { OnOk result (counts.new ≡ counts.old ++ block_counts (layout_of self.now) of (name_place of self.now.bags) (width (layout_of self.now))) }
    {
        let block = self.name_place(of);
        for i in 0..self.width() {
            let count = self.count_at(alloc, of, block, i)?;
            counts.push(count)?;
        }
        Ok(())
    }

    /// The counts of each bag variable at each element term.
    pub fn listed_counts(&self, alloc: Global) -> Result<Items<Count>, NoMemory>
        requires { LayoutFits self.now }
        ensures { IfOk result (λ cs. cs ≡ counts_of (layout_of self.now)) }
    {
        let mut counts = Items::new(alloc);
        for v in self.bags.as_slice() {
            self.push_counts(alloc, &mut counts, *v)?;
        }
        Ok(counts)
    }
}
