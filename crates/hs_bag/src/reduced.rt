//! The literals of a formula, asserted or denied, on the counts of their bags.

ghost use Rattle.std.specs.Prelude.{◌≡◌, ◌+◌, ◌<◌, ◌≤◌, ℕ, not, length, map, IfOk, IsErrOf};
ghost use Rattle.hs_pure.specs.Assertion.{assertion_of, bag_term_of, lt, both};
ghost use Rattle.hs_cooper_forms.specs.declared.refusal.Refusal.TheVariants.{Wide};
ghost use Rattle.hs_reduction.specs.Layout.{width, element, bag_compounds, if_denied};
ghost use Rattle.hs_reduction.specs.Instance.{instance};
ghost use Rattle.hs_reduction.specs.Reduction.{all_below, signed, zero_term, count_term, all_defined, reduced};
ghost use Rattle.hs_bag_parts.specs.Formulas.{counted, related};
ghost use Rattle.hs_bag.specs.Counting.{layout_of, number_in, LayoutFits, BlockFits};
ghost use Rattle.hs_bag_parts.specs.Substituting.{way_of, InstanceIsWide};
ghost use Rattle.hs_bag.specs.Substituting.{ReducedIsWide};
ghost use Rattle.hs_bag_parts.specs.Reading.{compounds_of, denied_of, all_compounds, all_denied};
ghost use Rattle.hs_bag.specs.Literals.{held, broken, stated, compared, contained, all_held, joined, reduced_all, AllAreWide, HeldIsWide};

use crate::layout::Layout;
use hs_bag_parts::{Relation, Way, and, compare, counted, equal, instance, less, not, or, zero};
use hs_cooper_forms::Refusal;
use hs_pure::{Bag, Lin, NoMemory, Pure, Var};
use sqlite_items::{Boxed, Items};
use std::alloc::Global;

/// How instances are made, and the first number of their bound variables.
#[derive(Clone, Copy)]
pub(crate) struct Instances {
    pub way: Way,
    pub end: u32,
}

/// A reduced formula, and the new element and the block after its own.
#[derive(Drop)]
pub(crate) struct Reduced {
    pub pure: Boxed<Pure>,
    pub new: u64,
    pub block: u64,
}

/// Reduced members of a formula, and the new element and the block after theirs.
#[derive(Drop)]
pub(crate) struct Members {
    pub parts: Items<Pure>,
    pub new: u64,
    pub block: u64,
}

fn if_denied(asserted: bool) -> u64
    ensures { result ≡ if_denied asserted }
{
    if asserted { 0 } else { 1 }
}

fn signed(alloc: Global, asserted: bool, p: Boxed<Pure>) -> Result<Boxed<Pure>, NoMemory>
    ensures { IfOk result (λ r. assertion_of r ≡ signed asserted (assertion_of p)) }
{
    if asserted { Ok(p) } else { not(alloc, p) }
}

// The members as a conjunction, or as a disjunction.
fn joined(alloc: Global, conjunction: bool, members: Members) -> Result<Reduced, NoMemory>
    ensures pure { IfOk result (λ r. assertion_of r.pure ≡ joined conjunction (map assertion_of members.parts)) }
    ensures new { IfOk result (λ r. r.new ≡ members.new) }
    ensures block { IfOk result (λ r. r.block ≡ members.block) }
{
    let Members { parts, new, block } = members;
    let pure = if conjunction {
        Boxed::new(alloc, Pure::And(parts))?
    } else {
        Boxed::new(alloc, Pure::Or(parts))?
    };
    Ok(Reduced { pure, new, block })
}

// A formula without bag literals.
fn kept(alloc: Global, asserted: bool, p: &Pure, new: u64, block: u64) -> Result<Reduced, NoMemory>
    ensures pure { IfOk result (λ r. assertion_of r.pure ≡ signed asserted (assertion_of p.now)) }
    ensures new { IfOk result (λ r. r.new ≡ new) }
    ensures block { IfOk result (λ r. r.block ≡ block) }
{
    let copy = Boxed::new(alloc, p.copy(alloc)?)?;
    Ok(Reduced {
        pure: signed(alloc, asserted, copy)?,
        new,
        block,
    })
}

impl Layout {
    // The count of a block at an element term.
    fn count(&self, alloc: Global, own: Option<u64>, i: u64) -> Result<Lin, NoMemory>
        requires fits { LayoutFits self.now }
        requires block { BlockFits self.now.blocks own }
        requires place { i ≤ width (layout_of self.now) }
        ensures { IfOk result (λ a. a ≡ counted (number_in (layout_of self.now) own i)) }
    {
        counted(alloc, self.number(own, i))
    }

    fn related_at(
        &self,
        alloc: Global,
        relation: Relation,
        x: Option<u64>,
        y: Option<u64>,
        i: u64,
    ) -> Result<Boxed<Pure>, NoMemory>
        requires fits { LayoutFits self.now }
        requires first { BlockFits self.now.blocks x }
        requires second { BlockFits self.now.blocks y }
        requires place { i ≤ width (layout_of self.now) }
        ensures { IfOk result (λ r. assertion_of r ≡ related relation (counted (number_in (layout_of self.now) x i)) (counted (number_in (layout_of self.now) y i))) }
    {
        let a = self.count(alloc, x, i)?;
        let b = self.count(alloc, y, i)?;
        compare(alloc, relation, &a, &b)
    }

    // At every element term.
    #[tactic(auto, using(crate::proofs::Every::every_push, crate::proofs::Every::every_none, crate::proofs::Every::every_and))]
    fn all_related(
        &self,
        alloc: Global,
        relation: Relation,
        x: Option<u64>,
        y: Option<u64>,
    ) -> Result<Boxed<Pure>, NoMemory>
        requires fits { LayoutFits self.now }
        requires first { BlockFits self.now.blocks x }
        requires second { BlockFits self.now.blocks y }
        ensures { IfOk result (λ r. assertion_of r ≡ all_below (width (layout_of self.now)) (λ i. related relation (counted (number_in (layout_of self.now) x i)) (counted (number_in (layout_of self.now) y i)))) }
    {
        let mut parts = Items::new(alloc);
        for i in 0..self.width() {
            let one = self.related_at(alloc, relation, x, y, i)?;
            parts.push(one.into_inner())?;
        }
        Ok(Boxed::new(alloc, Pure::And(parts))?)
    }

    // Asserted at every element term, or denied at a new one.
    fn stated(
        &self,
        alloc: Global,
        asserted: bool,
        relation: Relation,
        x: Option<u64>,
        y: Option<u64>,
        new: u64,
    ) -> Result<Boxed<Pure>, NoMemory>
        requires fits { LayoutFits self.now }
        requires first { BlockFits self.now.blocks x }
        requires second { BlockFits self.now.blocks y }
        requires element { new ≤ self.now.new }
        ensures { IfOk result (λ r. assertion_of r ≡ stated (layout_of self.now) asserted relation (λ i. counted (number_in (layout_of self.now) x i)) (λ i. counted (number_in (layout_of self.now) y i)) new) }
    {
        if asserted {
            self.all_related(alloc, relation, x, y)
        } else {
            let one = self.related_at(alloc, relation, x, y, self.listed.len() as u64 + new)?;
            not(alloc, one)
        }
    }

    // A comparison of two bags.
    fn compared(
        &self,
        alloc: Global,
        asserted: bool,
        relation: Relation,
        a: &Bag,
        b: &Bag,
        new: u64,
        block: u64,
    ) -> Result<Reduced, NoMemory>
        requires fits { LayoutFits self.now }
        requires element { new + if_denied asserted ≤ self.now.new }
        requires room { block + bag_compounds (bag_term_of a.now) + bag_compounds (bag_term_of b.now) ≤ self.now.blocks }
        ensures pure { IfOk result (λ r. assertion_of r.pure ≡ compared (layout_of self.now) asserted relation (bag_term_of a.now) (bag_term_of b.now) new block) }
        ensures new { IfOk result (λ r. r.new ≡ new + if_denied asserted) }
        ensures block { IfOk result (λ r. r.block ≡ block + bag_compounds (bag_term_of a.now) + bag_compounds (bag_term_of b.now)) }
    {
        let x = self.define_all(alloc, block, a)?;
        let y = self.define_all(alloc, x.next, b)?;
        let literal = self.stated(alloc, asserted, relation, x.own, y.own, new)?;
        let block = y.next;
        let defined = and(alloc, x.pure, y.pure)?;
        let pure = and(alloc, defined, literal)?;
        Ok(Reduced {
            pure,
            new: new + if_denied(asserted),
            block,
        })
    }

    fn positive_at(&self, alloc: Global, own: Option<u64>, i: u64) -> Result<Boxed<Pure>, NoMemory>
        requires fits { LayoutFits self.now }
        requires block { BlockFits self.now.blocks own }
        requires place { i ≤ width (layout_of self.now) }
        ensures { IfOk result (λ r. assertion_of r ≡ lt zero_term (counted (number_in (layout_of self.now) own i))) }
    {
        let count = self.count(alloc, own, i)?;
        less(alloc, &zero(alloc), &count)
    }

    // A member of a bag.
    fn contained(
        &self,
        alloc: Global,
        asserted: bool,
        a: &Lin,
        b: &Bag,
        new: u64,
        block: u64,
    ) -> Result<Reduced, NoMemory>
        requires fits { LayoutFits self.now }
        requires room { block + bag_compounds (bag_term_of b.now) ≤ self.now.blocks }
        ensures pure { IfOk result (λ r. assertion_of r.pure ≡ contained (layout_of self.now) asserted a.now (bag_term_of b.now) block) }
        ensures new { IfOk result (λ r. r.new ≡ new) }
        ensures block { IfOk result (λ r. r.block ≡ block + bag_compounds (bag_term_of b.now)) }
    {
        let x = self.define_all(alloc, block, b)?;
        let place = self.lin_place(a);
        let positive = self.positive_at(alloc, x.own, place)?;
        let literal = signed(alloc, asserted, positive)?;
        let block = x.next;
        let pure = and(alloc, x.pure, literal)?;
        Ok(Reduced { pure, new, block })
    }

    // The formula with an element term for the variable.
    fn instance_at(
        &self,
        alloc: Global,
        how: Instances,
        u: Var,
        p: &Pure,
        i: u64,
    ) -> Result<Boxed<Pure>, Refusal>
        requires fits { LayoutFits self.now }
        requires place { i ≤ width (layout_of self.now) }
        ensures exact { IfOk result (λ r. assertion_of r ≡ instance (way_of how.way) u (element (layout_of self.now) i) how.end (assertion_of p.now)) }
        ensures wide { IsErrOf result Wide → InstanceIsWide (way_of how.way) u (element (layout_of self.now) i) how.end (assertion_of p.now) }
    {
        let element = self.element(alloc, i)?;
        instance(alloc, how.way, u, &element, how.end, p)
    }

    fn held_at(
        &self,
        alloc: Global,
        how: Instances,
        own: Option<u64>,
        u: Var,
        p: &Pure,
        i: u64,
    ) -> Result<Boxed<Pure>, Refusal>
        requires fits { LayoutFits self.now }
        requires block { BlockFits self.now.blocks own }
        requires place { i ≤ width (layout_of self.now) }
        ensures exact { IfOk result (λ r. assertion_of r ≡ held (layout_of self.now) (way_of how.way) how.end (λ i. counted (number_in (layout_of self.now) own i)) u (assertion_of p.now) i) }
        ensures wide { IsErrOf result Wide → InstanceIsWide (way_of how.way) u (element (layout_of self.now) i) how.end (assertion_of p.now) }
    {
        let count = self.count(alloc, own, i)?;
        let none = equal(alloc, &count, &zero(alloc))?;
        let instance = self.instance_at(alloc, how, u, p, i)?;
        Ok(or(alloc, none, instance)?)
    }

    fn broken_at(
        &self,
        alloc: Global,
        how: Instances,
        own: Option<u64>,
        u: Var,
        p: &Pure,
        i: u64,
    ) -> Result<Boxed<Pure>, Refusal>
        requires fits { LayoutFits self.now }
        requires block { BlockFits self.now.blocks own }
        requires place { i ≤ width (layout_of self.now) }
        ensures exact { IfOk result (λ r. assertion_of r ≡ broken (layout_of self.now) (way_of how.way) how.end (λ i. counted (number_in (layout_of self.now) own i)) u (assertion_of p.now) i) }
        ensures wide { IsErrOf result Wide → InstanceIsWide (way_of how.way) u (element (layout_of self.now) i) how.end (assertion_of p.now) }
    {
        let positive = self.positive_at(alloc, own, i)?;
        let instance = self.instance_at(alloc, how, u, p, i)?;
        let broken = not(alloc, instance)?;
        Ok(and(alloc, positive, broken)?)
    }

    // At every element term.
    #[tactic(auto, using(crate::proofs::Every::every_push, crate::proofs::Every::every_none, crate::proofs::Every::every_and))]
    fn held_everywhere(
        &self,
        alloc: Global,
        how: Instances,
        own: Option<u64>,
        u: Var,
        p: &Pure,
    ) -> Result<Boxed<Pure>, Refusal>
        requires fits { LayoutFits self.now }
        requires block { BlockFits self.now.blocks own }
        ensures exact { IfOk result (λ r. assertion_of r ≡ all_below (width (layout_of self.now)) (held (layout_of self.now) (way_of how.way) how.end (λ i. counted (number_in (layout_of self.now) own i)) u (assertion_of p.now))) }
        ensures wide { IsErrOf result Wide → (i : ℕ) × ((i < width (layout_of self.now)) × InstanceIsWide (way_of how.way) u (element (layout_of self.now) i) how.end (assertion_of p.now)) }
    {
        let mut parts = Items::new(alloc);
        for i in 0..self.width() {
            let one = self.held_at(alloc, how, own, u, p, i)?;
            parts.push(one.into_inner())?;
        }
        Ok(Boxed::new(alloc, Pure::And(parts))?)
    }

    // Asserted at every element term, or denied at a new one.
    fn held_or_not(
        &self,
        alloc: Global,
        how: Instances,
        asserted: bool,
        own: Option<u64>,
        u: Var,
        p: &Pure,
        new: u64,
    ) -> Result<Boxed<Pure>, Refusal>
        requires fits { LayoutFits self.now }
        requires block { BlockFits self.now.blocks own }
        requires element { new ≤ self.now.new }
        ensures exact { IfOk result (λ r. assertion_of r ≡ all_held (layout_of self.now) (way_of how.way) how.end asserted (λ i. counted (number_in (layout_of self.now) own i)) u (assertion_of p.now) new) }
        ensures wide { IsErrOf result Wide → HeldIsWide (layout_of self.now) (way_of how.way) how.end asserted u (assertion_of p.now) new }
    {
        if asserted {
            self.held_everywhere(alloc, how, own, u, p)
        } else {
            self.broken_at(alloc, how, own, u, p, self.listed.len() as u64 + new)
        }
    }

    // A formula of all elements of a bag.
    fn all_of(
        &self,
        alloc: Global,
        how: Instances,
        asserted: bool,
        u: Var,
        b: &Bag,
        p: &Pure,
        new: u64,
        block: u64,
    ) -> Result<Reduced, Refusal>
        requires fits { LayoutFits self.now }
        requires element { new + if_denied asserted ≤ self.now.new }
        requires room { block + bag_compounds (bag_term_of b.now) ≤ self.now.blocks }
        ensures exact { IfOk result (λ r. assertion_of r.pure ≡ both (all_defined (layout_of self.now) block (bag_term_of b.now)) (all_held (layout_of self.now) (way_of how.way) how.end asserted (count_term (layout_of self.now) block (bag_term_of b.now)) u (assertion_of p.now) new)) }
        ensures new { IfOk result (λ r. r.new ≡ new + if_denied asserted) }
        ensures block { IfOk result (λ r. r.block ≡ block + bag_compounds (bag_term_of b.now)) }
        ensures wide { IsErrOf result Wide → HeldIsWide (layout_of self.now) (way_of how.way) how.end asserted u (assertion_of p.now) new }
    {
        let x = self.define_all(alloc, block, b)?;
        let literal = self.held_or_not(alloc, how, asserted, x.own, u, p, new)?;
        let block = x.next;
        let pure = and(alloc, x.pure, literal)?;
        Ok(Reduced {
            pure,
            new: new + if_denied(asserted),
            block,
        })
    }

    /// The formula, or its denial, on the counts. Its new elements begin with the one numbered `new`, its blocks with
    /// `block`. `Wide` comes only where a sum of an instance passes 128 bits.
    #[cycle(reduced)]
    pub fn reduced(
        &self,
        alloc: Global,
        how: Instances,
        asserted: bool,
        p: &Pure,
        new: u64,
        block: u64,
    ) -> Result<Reduced, Refusal>
        requires fits { LayoutFits self.now }
        requires elements { new + denied_of asserted p.now ≤ self.now.new }
        requires room { block + compounds_of p.now ≤ self.now.blocks }
        ensures exact { IfOk result (λ r. assertion_of r.pure ≡ reduced (layout_of self.now) (way_of how.way) how.end asserted (assertion_of p.now) new block) }
        ensures new { IfOk result (λ r. r.new ≡ new + denied_of asserted p.now) }
        ensures block { IfOk result (λ r. r.block ≡ block + compounds_of p.now) }
        ensures wide { IsErrOf result Wide → ReducedIsWide (layout_of self.now) (way_of how.way) how.end asserted (assertion_of p.now) new }
    {
        match p {
            Pure::BagEq(a, b) => Ok(self.compared(
                alloc,
                asserted,
                Relation::Equal,
                a,
                b,
                new,
                block,
            )?),
            Pure::Subset(a, b) => Ok(self.compared(
                alloc,
                asserted,
                Relation::AtMost,
                a,
                b,
                new,
                block,
            )?),
            Pure::Member(a, b) => Ok(self.contained(alloc, asserted, a, b, new, block)?),
            Pure::AllOf(u, b, p) => self.all_of(alloc, how, asserted, *u, b, p.get(), new, block),
            Pure::Not(p) => self.reduced(alloc, how, !asserted, p.get(), new, block),
            Pure::And(ps) => {
                let members = self.reduced_all(alloc, how, asserted, ps.as_slice(), new, block)?;
                Ok(joined(alloc, asserted, members)?)
            }
            Pure::Or(ps) => {
                let members = self.reduced_all(alloc, how, asserted, ps.as_slice(), new, block)?;
                Ok(joined(alloc, !asserted, members)?)
            }
            Pure::Eq(_, _) => Ok(kept(alloc, asserted, p, new, block)?),
            Pure::Lt(_, _) => Ok(kept(alloc, asserted, p, new, block)?),
            Pure::Le(_, _) => Ok(kept(alloc, asserted, p, new, block)?),
            Pure::Divides(_, _) => Ok(kept(alloc, asserted, p, new, block)?),
            Pure::Exists(_, _) => Ok(kept(alloc, asserted, p, new, block)?),
            Pure::Forall(_, _) => Ok(kept(alloc, asserted, p, new, block)?),
        }
    }

    #[cycle(reduced)]
    fn reduced_all(
        &self,
        alloc: Global,
        how: Instances,
        asserted: bool,
        ps: &[Pure],
        new: u64,
        block: u64,
    ) -> Result<Members, Refusal>
        requires fits { LayoutFits self.now }
        requires elements { new + all_denied asserted ps.now ≤ self.now.new }
        requires room { block + all_compounds ps.now ≤ self.now.blocks }
        ensures exact { IfOk result (λ r. map assertion_of r.parts ≡ reduced_all (layout_of self.now) (way_of how.way) how.end asserted ps.now new block) }
        ensures new { IfOk result (λ r. r.new ≡ new + all_denied asserted ps.now) }
        ensures block { IfOk result (λ r. r.block ≡ block + all_compounds ps.now) }
        ensures wide { IsErrOf result Wide → AllAreWide (layout_of self.now) (way_of how.way) how.end asserted ps.now new }
    {
        let mut parts = Items::new(alloc);
        let mut next_new = new;
        let mut next_block = block;
        for p in ps {
            let part = self.reduced(alloc, how, asserted, p, next_new, next_block)?;
            next_new = part.new;
            next_block = part.block;
            parts.push(part.pure.into_inner())?;
        }
        Ok(Members {
            parts,
            new: next_new,
            block: next_block,
        })
    }
}
