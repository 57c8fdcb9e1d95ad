//! The reduction of a formula on its layout.

ghost use Rattle.std.specs.Prelude.{◌≡◌, ◌+◌, ◌*◌, length, IfOk, IsErrOf};
ghost use Rattle.hs_pure.specs.Assertion.{assertion_of};
ghost use Rattle.hs_cooper_forms.specs.declared.refusal.Refusal.TheVariants.{Wide};
ghost use Rattle.hs_reduction.specs.Layout.{layout, width};
ghost use Rattle.hs_reduction.specs.Reduction.{reduction};
ghost use Rattle.hs_bag.specs.Counting.{layout_of, LayoutFits};
ghost use Rattle.hs_bag_parts.specs.Substituting.{way_of};
ghost use Rattle.hs_bag.specs.Substituting.{ReductionIsWide};
ghost use Rattle.hs_bag_parts.specs.Reading.{compounds_of};

use crate::layout::Layout;
use crate::reduced::Instances;
use hs_bag_parts::{Way, and};
use hs_cooper_forms::Refusal;
use hs_pure::Pure;
use sqlite_items::Boxed;
use std::alloc::Global;

impl Layout {
    /// The number after the new ones.
    pub fn end(&self) -> u32
        requires { LayoutFits self.now }
        ensures { result ≡ self.now.start + self.now.new + self.now.blocks * width (layout_of self.now) }
    {
        (u64::from(self.start) + self.new + self.blocks * self.width()) as u32
    }

    /// The reduction of the formula that the layout is of. `Wide` comes only where a sum of an instance passes 128 bits.
    pub fn reduction(&self, alloc: Global, way: Way, f: &Pure) -> Result<Boxed<Pure>, Refusal>
        requires layout { layout_of self.now ≡ layout self.now.start (assertion_of f.now) }
        requires blocks { self.now.blocks ≡ length self.now.bags + compounds_of f.now }
        requires fits { LayoutFits self.now }
        ensures exact { IfOk result (λ r. assertion_of r ≡ reduction (way_of way) self.now.start (assertion_of f.now)) }
        ensures wide { IsErrOf result Wide → ReductionIsWide (way_of way) self.now.start (assertion_of f.now) }
    {
        let how = Instances {
            way,
            end: self.end(),
        };
        let counts = self.all_are_counts(alloc)?;
        let literals = self.reduced(alloc, how, true, f, 0, self.bags.len() as u64)?;
        Ok(and(alloc, counts, literals.pure)?)
    }
}
