//! What compound bags count at the element terms.

ghost use Rattle.std.specs.Prelude.{◌≡◌, ◌+◌, ◌<◌, ◌≤◌, ◌^◌, Some, IfOk};
ghost use Rattle.hs_pure.specs.Assertion.{assertion_of, bag_term_of, both};
ghost use Rattle.hs_reduction.specs.Layout.{width, element, bag_compounds};
ghost use Rattle.hs_reduction.specs.Reduction.{is_single, defined, all_defined};
ghost use Rattle.hs_bag_parts.specs.Formulas.{counted};
ghost use Rattle.hs_bag.specs.Counting.{operated, layout_of, own_block, number_in, LayoutFits, BlockFits};

use crate::layout::Layout;
use hs_bag_parts::{and, is_difference, is_least, is_single, is_sum, truth, variable};
use hs_pure::{Bag, Lin, NoMemory, Pure};
use sqlite_items::{Boxed, Items};
use std::alloc::Global;

/// What is said of a bag at one element term.
#[derive(Drop)]
pub(crate) struct Defined {
    pub pure: Boxed<Pure>,
    /// The block of its own counts, if it has one.
    pub own: Option<u64>,
    /// The block after those of its compound bags.
    pub next: u64,
}

// The block of a bag's own counts, if it has one, and the block after those of its compound bags.
#[derive(Clone, Copy)]
struct Blocks {
    own: Option<u64>,
    next: u64,
}

// The last block of an operation is its own.
fn after(block: u64) -> Blocks
    requires { block < 2 ^ 32 }
    ensures own { result.own ≡ Some block }
    ensures next { result.next ≡ block + 1 }
{
    Blocks {
        own: Some(block),
        next: block + 1,
    }
}

/// How a bag is made of two.
#[derive(Clone, Copy, Debug, PartialEq, Eq)]
pub(crate) enum Operation {
    Union,
    Inter,
    Diff,
}

impl Layout {
    // What the counts of an operation are.
    fn operate(
        &self,
        alloc: Global,
        operation: Operation,
        c: Option<u64>,
        x: Option<u64>,
        y: Option<u64>,
        i: u64,
    ) -> Result<Boxed<Pure>, NoMemory>
        requires fits { LayoutFits self.now }
        requires place { i ≤ width (layout_of self.now) }
        requires own { BlockFits self.now.blocks c }
        requires first { BlockFits self.now.blocks x }
        requires second { BlockFits self.now.blocks y }
        ensures { IfOk result (λ r. assertion_of r ≡ operated operation (counted (number_in (layout_of self.now) c i)) (counted (number_in (layout_of self.now) x i)) (counted (number_in (layout_of self.now) y i))) }
    {
        let c = self.number(c, i);
        let x = self.number(x, i);
        let y = self.number(y, i);
        match operation {
            Operation::Union => is_sum(alloc, c, x, y),
            Operation::Inter => is_least(alloc, c, x, y),
            Operation::Diff => is_difference(alloc, c, x, y),
        }
    }

    // The operation of two bags, which have the blocks before `y.next`.
    fn define_operation(
        &self,
        alloc: Global,
        operation: Operation,
        x: Defined,
        y: Defined,
        i: u64,
    ) -> Result<Defined, NoMemory>
        requires fits { LayoutFits self.now }
        requires place { i ≤ width (layout_of self.now) }
        requires first { BlockFits self.now.blocks x.own }
        requires second { BlockFits self.now.blocks y.own }
        requires room { y.next < self.now.blocks }
        ensures pure { IfOk result (λ d. assertion_of d.pure ≡ both (both (assertion_of x.pure) (assertion_of y.pure)) (operated operation (counted (number_in (layout_of self.now) (Some y.next) i)) (counted (number_in (layout_of self.now) x.own i)) (counted (number_in (layout_of self.now) y.own i)))) }
        ensures own { IfOk result (λ d. d.own ≡ Some y.next) }
        ensures next { IfOk result (λ d. d.next ≡ y.next + 1) }
    {
        let own = Some(y.next);
        let parts = and(alloc, x.pure, y.pure)?;
        let result = self.operate(alloc, operation, own, x.own, y.own, i)?;
        Ok(Defined {
            pure: and(alloc, parts, result)?,
            own,
            next: y.next + 1,
        })
    }

    // The bag of the value of `a`.
    fn define_one(&self, alloc: Global, block: u64, a: &Lin, i: u64) -> Result<Defined, NoMemory>
        requires fits { LayoutFits self.now }
        requires place { i ≤ width (layout_of self.now) }
        requires room { block < self.now.blocks }
        ensures pure { IfOk result (λ d. assertion_of d.pure ≡ is_single (counted (number_in (layout_of self.now) (Some block) i)) (element (layout_of self.now) i) a.now) }
        ensures own { IfOk result (λ d. d.own ≡ Some block) }
        ensures next { IfOk result (λ d. d.next ≡ block + 1) }
    {
        let count = variable(alloc, self.count_number(block, i))?;
        let element = self.element(alloc, i)?;
        Ok(Defined {
            pure: is_single(alloc, &count, &element, a)?,
            own: Some(block),
            next: block + 1,
        })
    }

    /// What the compound bags of `b` count at the element term `i`, where their blocks begin with `block`.
    pub fn define(&self, alloc: Global, block: u64, b: &Bag, i: u64) -> Result<Defined, NoMemory>
        requires fits { LayoutFits self.now }
        requires place { i ≤ width (layout_of self.now) }
        requires room { block + bag_compounds (bag_term_of b.now) ≤ self.now.blocks }
        ensures pure { IfOk result (λ d. assertion_of d.pure ≡ defined (layout_of self.now) block (bag_term_of b.now) i) }
        ensures own { IfOk result (λ d. d.own ≡ own_block (layout_of self.now) block (bag_term_of b.now)) }
        ensures next { IfOk result (λ d. d.next ≡ block + bag_compounds (bag_term_of b.now)) }
    {
        match b {
            Bag::Empty => Ok(Defined {
                pure: truth(alloc)?,
                own: None,
                next: block,
            }),
            Bag::Name(v) => Ok(Defined {
                pure: truth(alloc)?,
                own: Some(self.name_place(*v)),
                next: block,
            }),
            Bag::One(a) => self.define_one(alloc, block, a, i),
            Bag::Union(a, b) => {
                let x = self.define(alloc, block, a.get(), i)?;
                let y = self.define(alloc, x.next, b.get(), i)?;
                self.define_operation(alloc, Operation::Union, x, y, i)
            }
            Bag::Inter(a, b) => {
                let x = self.define(alloc, block, a.get(), i)?;
                let y = self.define(alloc, x.next, b.get(), i)?;
                self.define_operation(alloc, Operation::Inter, x, y, i)
            }
            Bag::Diff(a, b) => {
                let x = self.define(alloc, block, a.get(), i)?;
                let y = self.define(alloc, x.next, b.get(), i)?;
                self.define_operation(alloc, Operation::Diff, x, y, i)
            }
        }
    }

    // The block of a bag's own counts, and the block after those of its compound bags.
    fn blocks(&self, block: u64, b: &Bag) -> Blocks
        requires fits { LayoutFits self.now }
        requires room { block + bag_compounds (bag_term_of b.now) ≤ self.now.blocks }
        ensures own { result.own ≡ own_block (layout_of self.now) block (bag_term_of b.now) }
        ensures next { result.next ≡ block + bag_compounds (bag_term_of b.now) }
    {
        match b {
            Bag::Empty => Blocks {
                own: None,
                next: block,
            },
            Bag::Name(v) => Blocks {
                own: Some(self.name_place(*v)),
                next: block,
            },
            Bag::One(_) => Blocks {
                own: Some(block),
                next: block + 1,
            },
            Bag::Union(a, b) => {
                let x = self.blocks(block, a.get());
                let y = self.blocks(x.next, b.get());
                after(y.next)
            }
            Bag::Inter(a, b) => {
                let x = self.blocks(block, a.get());
                let y = self.blocks(x.next, b.get());
                after(y.next)
            }
            Bag::Diff(a, b) => {
                let x = self.blocks(block, a.get());
                let y = self.blocks(x.next, b.get());
                after(y.next)
            }
        }
    }

    // At every element term.
    #[tactic(auto, using(crate::proofs::Every::every_push, crate::proofs::Every::every_none, crate::proofs::Every::every_and))]
    fn define_everywhere(&self, alloc: Global, block: u64, b: &Bag) -> Result<Boxed<Pure>, NoMemory>
        requires fits { LayoutFits self.now }
        requires room { block + bag_compounds (bag_term_of b.now) ≤ self.now.blocks }
        ensures { IfOk result (λ r. assertion_of r ≡ all_defined (layout_of self.now) block (bag_term_of b.now)) }
    {
        let mut parts = Items::new(alloc);
        for i in 0..self.width() {
            let one = self.define(alloc, block, b, i)?;
            parts.push(one.pure.into_inner())?;
        }
        Ok(Boxed::new(alloc, Pure::And(parts))?)
    }

    /// What the compound bags of `b` count at every element term.
    pub fn define_all(&self, alloc: Global, block: u64, b: &Bag) -> Result<Defined, NoMemory>
        requires fits { LayoutFits self.now }
        requires room { block + bag_compounds (bag_term_of b.now) ≤ self.now.blocks }
        ensures pure { IfOk result (λ d. assertion_of d.pure ≡ all_defined (layout_of self.now) block (bag_term_of b.now)) }
        ensures own { IfOk result (λ d. d.own ≡ own_block (layout_of self.now) block (bag_term_of b.now)) }
        ensures next { IfOk result (λ d. d.next ≡ block + bag_compounds (bag_term_of b.now)) }
    {
        let blocks = self.blocks(block, b);
        Ok(Defined {
            pure: self.define_everywhere(alloc, block, b)?,
            own: blocks.own,
            next: blocks.next,
        })
    }
}
