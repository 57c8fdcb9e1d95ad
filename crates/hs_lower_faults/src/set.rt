//! Which slots are set.

ghost use Rattle.std.specs.Prelude.{◌≡◌, ◌&&◌, IfOk};
ghost use Rattle.hs_lower_faults.specs.Setting as spec;
ghost use Rattle.hs_lower_faults.specs.View.{set_of};

use hs_pure::NoMemory;
use sqlite_items::Items;
use std::alloc::Global;

/// Of each slot from 0, whether it is set: what is listed, and of all others the same.
#[derive(Drop)]
pub struct SetTable {
    pub bits: Items<bool>,
    pub rest: bool,
}

impl SetTable {
    /// Everything is set.
    pub fn all(alloc: Global) -> SetTable
        ensures { set_of result ≡ spec.all_set }
    {
        SetTable {
            bits: Items::new(alloc),
            rest: true,
        }
    }

    /// The slots of so many parameters are set.
    pub fn params(alloc: Global, count: usize) -> Result<SetTable, NoMemory>
        ensures { IfOk result (λ t. set_of t ≡ spec.params_set count) }
    {
        let mut bits = Items::new(alloc);
        bits.push(true)?;
        for _i in 0..count {
            bits.push(true)?;
        }
        Ok(SetTable { bits, rest: false })
    }

    pub fn copy(&self, alloc: Global) -> Result<SetTable, NoMemory>
        ensures { IfOk result (λ t. t ≡ self.now) }
    {
        let bits = Items::from_slice(alloc, self.bits.as_slice())?;
        Ok(SetTable {
            bits,
            rest: self.rest,
        })
    }

    pub fn has(&self, k: usize) -> bool
        ensures { result ≡ set_of self.now k }
    {
        if k < self.bits.len() {
            self.bits.as_slice()[k]
        } else {
            self.rest
        }
    }

    // Whether the slot i is set or k.
    fn has_with(&self, k: usize, i: usize) -> bool
        ensures { result ≡ spec.with_slot k (set_of self.now) i }
    {
        i == k || self.has(i)
    }

    // Whether both have set the slot i.
    fn has_both(&self, other: &SetTable, i: usize) -> bool
        ensures { result ≡ spec.both_set (set_of self.now) (set_of other.now) i }
    {
        self.has(i) && other.has(i)
    }

    fn rest_of_both(&self, other: &SetTable) -> bool
        ensures { result ≡ (self.now.rest && other.now.rest) }
    {
        self.rest && other.rest
    }

    /// The same with a slot.
    pub fn with(&self, alloc: Global, k: u32) -> Result<SetTable, NoMemory>
        ensures { IfOk result (λ t. set_of t ≡ spec.with_slot k (set_of self.now)) }
    {
        let k = k as usize;
        let mut bits = Items::new(alloc);
        let count = self.bits.len().max(k + 1);
        for i in 0..count {
            bits.push(self.has_with(k, i))?;
        }
        Ok(SetTable {
            bits,
            rest: self.rest,
        })
    }

    /// What both have set.
    pub fn both(&self, alloc: Global, other: &SetTable) -> Result<SetTable, NoMemory>
        ensures { IfOk result (λ t. set_of t ≡ spec.both_set (set_of self.now) (set_of other.now)) }
    {
        let mut bits = Items::new(alloc);
        let count = self.bits.len().max(other.bits.len());
        for i in 0..count {
            bits.push(self.has_both(other, i))?;
        }
        let rest = self.rest_of_both(other);
        Ok(SetTable { bits, rest })
    }
}
