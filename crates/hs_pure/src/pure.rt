ghost use Rattle.std.specs.Prelude.{◌≡◌, ◌<◌, ◌≤◌, ◌↔◌, IfOk, IsTrue, not, map};
ghost use Rattle.std.specs.List.{list_any, All};
ghost use Rattle.hs_pure.specs.Occurs.{is_free, occurs, top_of, greatest, bag_use, has_bags, is_bags_plain};
ghost use Rattle.hs_pure.specs.Rename.{renaming, renamed as renamed_pure, InRange, KeepsApart};
ghost use Rattle.hs_pure.specs.Stack.{Stack};
ghost use Rattle.hs_pure.specs.Truth.{TrueAt};

use crate::bag::{copy_two, rename_two};
use crate::var::renamed;
use crate::{Bag, Lin, NoMemory, Var};
use sqlite_items::{Boxed, Items};
use std::alloc::Global;
use std::cmp::max;

/// A pure formula. `And` and `Or` never have exactly one member; without members they are true and false.
#[derive(Debug, Drop)]
pub enum Pure {
    Eq(Lin, Lin),
    Lt(Lin, Lin),
    Le(Lin, Lin),
    /// The number is at least 1 and divides the sum.
    Divides(i128, Lin),
    BagEq(Bag, Bag),
    /// Each count of the first is at most that of the second.
    Subset(Bag, Bag),
    Member(Lin, Bag),
    /// The formula holds for each element of the bag.
    AllOf(Var, Bag, Boxed<Pure>),
    Not(Boxed<Pure>),
    And(Items<Pure>),
    Or(Items<Pure>),
    Exists(Var, Boxed<Pure>),
    Forall(Var, Boxed<Pure>),
}

impl Pure {
    /// An equal formula.
    #[cycle(copy)]
    pub fn copy(&self, alloc: Global) -> Result<Pure, NoMemory>
        ensures { IfOk result (λ p. p ≡ self.now) }
    {
        match self {
            Pure::Eq(a, b) => Ok(Pure::Eq(a.copy(alloc)?, b.copy(alloc)?)),
            Pure::Lt(a, b) => Ok(Pure::Lt(a.copy(alloc)?, b.copy(alloc)?)),
            Pure::Le(a, b) => Ok(Pure::Le(a.copy(alloc)?, b.copy(alloc)?)),
            Pure::Divides(d, a) => Ok(Pure::Divides(*d, a.copy(alloc)?)),
            Pure::BagEq(a, b) => {
                let (a, b) = copy_two(alloc, a, b)?;
                Ok(Pure::BagEq(a, b))
            }
            Pure::Subset(a, b) => {
                let (a, b) = copy_two(alloc, a, b)?;
                Ok(Pure::Subset(a, b))
            }
            Pure::Member(a, b) => Ok(Pure::Member(a.copy(alloc)?, b.copy(alloc)?)),
            Pure::AllOf(u, b, p) => {
                let p = copy_boxed(alloc, p.get())?;
                Ok(Pure::AllOf(*u, b.copy(alloc)?, p))
            }
            Pure::Not(p) => Ok(Pure::Not(copy_boxed(alloc, p.get())?)),
            Pure::And(ps) => Ok(Pure::And(copy_all(alloc, ps.as_slice())?)),
            Pure::Or(ps) => Ok(Pure::Or(copy_all(alloc, ps.as_slice())?)),
            Pure::Exists(u, p) => Ok(Pure::Exists(*u, copy_boxed(alloc, p.get())?)),
            Pure::Forall(u, p) => Ok(Pure::Forall(*u, copy_boxed(alloc, p.get())?)),
        }
    }

    /// Whether `v` occurs free.
    #[cycle(has)]
    pub fn has(&self, v: Var) -> bool
        ensures { result ≡ is_free v self.now }
    {
        match self {
            Pure::Eq(a, b) => a.has(v) || b.has(v),
            Pure::Lt(a, b) => a.has(v) || b.has(v),
            Pure::Le(a, b) => a.has(v) || b.has(v),
            Pure::Divides(_, a) => a.has(v),
            Pure::BagEq(a, b) => a.has(v) || b.has(v),
            Pure::Subset(a, b) => a.has(v) || b.has(v),
            Pure::Member(a, b) => a.has(v) || b.has(v),
            Pure::AllOf(u, b, p) => b.has(v) || *u != v && p.get().has(v),
            Pure::Not(p) => p.get().has(v),
            Pure::And(ps) => any_has(ps.as_slice(), v),
            Pure::Or(ps) => any_has(ps.as_slice(), v),
            Pure::Exists(u, p) => *u != v && p.get().has(v),
            Pure::Forall(u, p) => *u != v && p.get().has(v),
        }
    }

    /// The greatest number of a variable that occurs, bound or free. Where none occurs it is 0.
    pub fn top(&self) -> u32
        ensures value { result ≡ top_of self.now }
        ensures bound { (v : Var) → IsTrue (occurs v self.now) → v.number ≤ result }
        ensures reached { 0 < result → (v : Var) × (IsTrue (occurs v self.now) × (v.number ≡ result)) }
    {
        self.greatest()
    }

    #[cycle(greatest)]
    fn greatest(&self) -> u32
        ensures { result ≡ top_of self.now }
    {
        match self {
            Pure::Eq(a, b) => max(a.top(), b.top()),
            Pure::Lt(a, b) => max(a.top(), b.top()),
            Pure::Le(a, b) => max(a.top(), b.top()),
            Pure::Divides(_, a) => a.top(),
            Pure::BagEq(a, b) => max(a.top(), b.top()),
            Pure::Subset(a, b) => max(a.top(), b.top()),
            Pure::Member(a, b) => max(a.top(), b.top()),
            Pure::AllOf(u, b, p) => max(b.top(), max(u.number, p.get().greatest())),
            Pure::Not(p) => p.get().greatest(),
            Pure::And(ps) => greatest_of(ps.as_slice()),
            Pure::Or(ps) => greatest_of(ps.as_slice()),
            Pure::Exists(u, p) => max(u.number, p.get().greatest()),
            Pure::Forall(u, p) => max(u.number, p.get().greatest()),
        }
    }

    /// Whether no bag literal (`BagEq`, `Subset`, `Member`, `AllOf`) stands under `Exists`, `Forall` or
    /// `AllOf`.
    #[cycle(bags_plain)]
    pub fn bags_plain(&self) -> bool
        ensures { result ≡ is_bags_plain self.now }
    {
        match self {
            Pure::Eq(_, _)
            | Pure::Lt(_, _)
            | Pure::Le(_, _)
            | Pure::Divides(_, _)
            | Pure::BagEq(_, _)
            | Pure::Subset(_, _)
            | Pure::Member(_, _) => true,
            Pure::AllOf(_, _, p) => !p.get().has_bags(),
            Pure::Not(p) => p.get().bags_plain(),
            Pure::And(ps) => all_bags_plain(ps.as_slice()),
            Pure::Or(ps) => all_bags_plain(ps.as_slice()),
            Pure::Exists(_, p) => !p.get().has_bags(),
            Pure::Forall(_, p) => !p.get().has_bags(),
        }
    }

    /// Whether a bag literal occurs.
    #[cycle(has_bags)]
    pub fn has_bags(&self) -> bool
        ensures { result ≡ has_bags self.now }
    {
        match self {
            Pure::Eq(_, _) | Pure::Lt(_, _) | Pure::Le(_, _) | Pure::Divides(_, _) => false,
            Pure::BagEq(_, _) | Pure::Subset(_, _) | Pure::Member(_, _) | Pure::AllOf(_, _, _) =>
                true,
            Pure::Not(p) => p.get().has_bags(),
            Pure::And(ps) => any_has_bags(ps.as_slice()),
            Pure::Or(ps) => any_has_bags(ps.as_slice()),
            Pure::Exists(_, p) => p.get().has_bags(),
            Pure::Forall(_, p) => p.get().has_bags(),
        }
    }

    /// The formula with each listed variable in the place of another, all at once, bound ones too. The first
    /// pair of a variable counts.
    pub fn rename(&self, alloc: Global, map: &[(Var, Var)]) -> Result<Pure, NoMemory>
        requires apart { KeepsApart (renaming map.now) self.now }
        requires in_range { InRange (renaming map.now) self.now }
        ensures same { IfOk result (λ p. p ≡ renamed_pure (renaming map.now) self.now) }
        ensures truth { IfOk result (λ p. (s : Stack) → TrueAt s p ↔ TrueAt (λ v. s (renaming map.now v)) self.now) }
    {
        self.put_names(alloc, map)
    }

    /// As `rename`, also where different variables become one: what the result is, and not what it means.
    #[cycle(rename)]
    pub fn put_names(&self, alloc: Global, map: &[(Var, Var)]) -> Result<Pure, NoMemory>
        requires { InRange (renaming map.now) self.now }
        ensures { IfOk result (λ p. p ≡ renamed_pure (renaming map.now) self.now) }
    {
        match self {
            Pure::Eq(a, b) => Ok(Pure::Eq(a.rename(alloc, map)?, b.rename(alloc, map)?)),
            Pure::Lt(a, b) => Ok(Pure::Lt(a.rename(alloc, map)?, b.rename(alloc, map)?)),
            Pure::Le(a, b) => Ok(Pure::Le(a.rename(alloc, map)?, b.rename(alloc, map)?)),
            Pure::Divides(d, a) => Ok(Pure::Divides(*d, a.rename(alloc, map)?)),
            Pure::BagEq(a, b) => {
                let (a, b) = rename_two(alloc, a, b, map)?;
                Ok(Pure::BagEq(a, b))
            }
            Pure::Subset(a, b) => {
                let (a, b) = rename_two(alloc, a, b, map)?;
                Ok(Pure::Subset(a, b))
            }
            Pure::Member(a, b) => Ok(Pure::Member(a.rename(alloc, map)?, b.rename(alloc, map)?)),
            Pure::AllOf(u, b, p) => {
                let p = rename_boxed(alloc, p.get(), map)?;
                Ok(Pure::AllOf(renamed(map, *u), b.rename(alloc, map)?, p))
            }
            Pure::Not(p) => Ok(Pure::Not(rename_boxed(alloc, p.get(), map)?)),
            Pure::And(ps) => Ok(Pure::And(rename_all(alloc, ps.as_slice(), map)?)),
            Pure::Or(ps) => Ok(Pure::Or(rename_all(alloc, ps.as_slice(), map)?)),
            Pure::Exists(u, p) => {
                let p = rename_boxed(alloc, p.get(), map)?;
                Ok(Pure::Exists(renamed(map, *u), p))
            }
            Pure::Forall(u, p) => {
                let p = rename_boxed(alloc, p.get(), map)?;
                Ok(Pure::Forall(renamed(map, *u), p))
            }
        }
    }
}

// On the heap, so that the callers drop it by one call and not case by case.
#[cycle(copy)]
fn copy_boxed(alloc: Global, p: &Pure) -> Result<Boxed<Pure>, NoMemory>
    ensures { IfOk result (λ c. c ≡ p.now) }
{
    Ok(Boxed::new(alloc, p.copy(alloc)?)?)
}

#[cycle(copy)]
fn copy_all(alloc: Global, ps: &[Pure]) -> Result<Items<Pure>, NoMemory>
    ensures { IfOk result (λ all. all ≡ ps.now) }
{
    let mut all = Items::new(alloc);
    for p in ps {
        all.push(p.copy(alloc)?)?;
    }
    Ok(all)
}

#[cycle(has)]
fn any_has(ps: &[Pure], v: Var) -> bool
    ensures { result ≡ list_any (λ b. b) (map (is_free v) ps.now) }
{
    for p in ps {
        if p.has(v) {
            return true;
        }
    }
    false
}

#[cycle(greatest)]
fn greatest_of(ps: &[Pure]) -> u32
    ensures { result ≡ greatest (map top_of ps.now) }
{
    let mut top = 0;
    for p in ps {
        top = max(top, p.greatest());
    }
    top
}

#[cycle(bags_plain)]
fn all_bags_plain(ps: &[Pure]) -> bool
    ensures { result ≡ not (list_any (λ p. p.under) (map bag_use ps.now)) }
{
    for p in ps {
        if !p.bags_plain() {
            return false;
        }
    }
    true
}

#[cycle(has_bags)]
fn any_has_bags(ps: &[Pure]) -> bool
    ensures { result ≡ list_any (λ p. p.has) (map bag_use ps.now) }
{
    for p in ps {
        if p.has_bags() {
            return true;
        }
    }
    false
}

#[cycle(rename)]
fn rename_boxed(alloc: Global, p: &Pure, pairs: &[(Var, Var)]) -> Result<Boxed<Pure>, NoMemory>
    requires { InRange (renaming pairs.now) p.now }
    ensures { IfOk result (λ c. c ≡ renamed_pure (renaming pairs.now) p.now) }
{
    Ok(Boxed::new(alloc, p.put_names(alloc, pairs)?)?)
}

#[cycle(rename)]
fn rename_all(alloc: Global, ps: &[Pure], pairs: &[(Var, Var)]) -> Result<Items<Pure>, NoMemory>
    requires { All (InRange (renaming pairs.now)) ps.now }
    ensures { IfOk result (λ all. all ≡ map (renamed_pure (renaming pairs.now)) ps.now) }
{
    let mut all = Items::new(alloc);
    for p in ps {
        all.push(p.put_names(alloc, pairs)?)?;
    }
    Ok(all)
}
