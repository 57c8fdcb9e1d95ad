ghost use Rattle.std.specs.Prelude.{◌≡◌, IfOk};
ghost use Rattle.hs_pure.specs.Occurs.{in_bag, bag_top};
ghost use Rattle.hs_pure.specs.Rename.{renaming, renamed_bag, BagInRange};

use crate::var::renamed;
use crate::{Lin, NoMemory, Var};
use sqlite_items::Boxed;
use std::alloc::Global;
use std::cmp::max;

/// A bag: a finite map from integers to positive counts.
#[derive(Debug, Drop)]
pub enum Bag {
    Empty,
    Name(Var),
    /// The value of the sum, once.
    One(Lin),
    /// The counts added.
    Union(Boxed<Bag>, Boxed<Bag>),
    /// The lesser count.
    Inter(Boxed<Bag>, Boxed<Bag>),
    /// The first count less the second, down to 0.
    Diff(Boxed<Bag>, Boxed<Bag>),
}

impl Bag {
    /// An equal bag.
    #[cycle(copy)]
    pub fn copy(&self, alloc: Global) -> Result<Bag, NoMemory>
        ensures { IfOk result (λ b. b ≡ self.now) }
    {
        match self {
            Bag::Empty => Ok(Bag::Empty),
            Bag::Name(v) => Ok(Bag::Name(*v)),
            Bag::One(a) => Ok(Bag::One(a.copy(alloc)?)),
            Bag::Union(a, b) => Ok(Bag::Union(
                copy_boxed(alloc, a.get())?,
                copy_boxed(alloc, b.get())?,
            )),
            Bag::Inter(a, b) => Ok(Bag::Inter(
                copy_boxed(alloc, a.get())?,
                copy_boxed(alloc, b.get())?,
            )),
            Bag::Diff(a, b) => Ok(Bag::Diff(
                copy_boxed(alloc, a.get())?,
                copy_boxed(alloc, b.get())?,
            )),
        }
    }

    pub(crate) fn has(&self, v: Var) -> bool
        ensures { result ≡ in_bag v self.now }
    {
        match self {
            Bag::Empty => false,
            Bag::Name(u) => *u == v,
            Bag::One(a) => a.has(v),
            Bag::Union(a, b) => a.get().has(v) || b.get().has(v),
            Bag::Inter(a, b) => a.get().has(v) || b.get().has(v),
            Bag::Diff(a, b) => a.get().has(v) || b.get().has(v),
        }
    }

    pub(crate) fn top(&self) -> u32
        ensures { result ≡ bag_top self.now }
    {
        match self {
            Bag::Empty => 0,
            Bag::Name(u) => u.number,
            Bag::One(a) => a.top(),
            Bag::Union(a, b) => max(a.get().top(), b.get().top()),
            Bag::Inter(a, b) => max(a.get().top(), b.get().top()),
            Bag::Diff(a, b) => max(a.get().top(), b.get().top()),
        }
    }

    /// The bag with each listed variable in the place of another, all at once.
    #[cycle(rename)]
    #[tactic(auto, using(crate::proofs::Ranges::one_range))]
    pub fn rename(&self, alloc: Global, map: &[(Var, Var)]) -> Result<Bag, NoMemory>
        requires { BagInRange (renaming map.now) self.now }
        ensures { IfOk result (λ b. b ≡ renamed_bag (renaming map.now) self.now) }
    {
        match self {
            Bag::Empty => Ok(Bag::Empty),
            Bag::Name(v) => Ok(Bag::Name(renamed(map, *v))),
            Bag::One(a) => Ok(Bag::One(a.rename(alloc, map)?)),
            Bag::Union(a, b) => {
                let a = rename_boxed(alloc, a.get(), map)?;
                let b = rename_boxed(alloc, b.get(), map)?;
                Ok(Bag::Union(a, b))
            }
            Bag::Inter(a, b) => {
                let a = rename_boxed(alloc, a.get(), map)?;
                let b = rename_boxed(alloc, b.get(), map)?;
                Ok(Bag::Inter(a, b))
            }
            Bag::Diff(a, b) => {
                let a = rename_boxed(alloc, a.get(), map)?;
                let b = rename_boxed(alloc, b.get(), map)?;
                Ok(Bag::Diff(a, b))
            }
        }
    }
}

// On the heap, so that the callers drop it by one call and not case by case.
#[cycle(copy)]
fn copy_boxed(alloc: Global, b: &Bag) -> Result<Boxed<Bag>, NoMemory>
    ensures { IfOk result (λ c. c ≡ b.now) }
{
    Ok(Boxed::new(alloc, b.copy(alloc)?)?)
}

#[cycle(rename)]
fn rename_boxed(alloc: Global, b: &Bag, map: &[(Var, Var)]) -> Result<Boxed<Bag>, NoMemory>
    requires { BagInRange (renaming map.now) b.now }
    ensures { IfOk result (λ c. c ≡ renamed_bag (renaming map.now) b.now) }
{
    Ok(Boxed::new(alloc, b.rename(alloc, map)?)?)
}

pub fn copy_two(alloc: Global, a: &Bag, b: &Bag) -> Result<(Bag, Bag), NoMemory>
    ensures { IfOk result (λ r. r ≡ (a.now, b.now)) }
{
    let first = copy_boxed(alloc, a)?;
    let second = b.copy(alloc)?;
    Ok((first.into_inner(), second))
}

pub fn rename_two(
    alloc: Global,
    a: &Bag,
    b: &Bag,
    map: &[(Var, Var)],
) -> Result<(Bag, Bag), NoMemory>
    requires first { BagInRange (renaming map.now) a.now }
    requires second { BagInRange (renaming map.now) b.now }
    ensures { IfOk result (λ r. r ≡ (renamed_bag (renaming map.now) a.now, renamed_bag (renaming map.now) b.now)) }
{
    let first = rename_boxed(alloc, a, map)?;
    let second = b.rename(alloc, map)?;
    Ok((first.into_inner(), second))
}
