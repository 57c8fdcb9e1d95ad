//! Frames: a method, a point, and a number in each slot.

ghost use Rattle.std.specs.Prelude.{◌≡◌, ℤ, pos, ◌+◌, ◌<◌, ◌^◌, ◌+ℤ◌, ◌*ℤ◌, length, map, IfOk, FitsSigned};
ghost use mir.Syntax.{w128};
ghost use Rattle.std.specs.List.{All};
ghost use Rattle.hs_pure.specs.Answer.{Gives};
ghost use Rattle.hs_pure.specs.Eval.{SumFits, stack_of};
ghost use Rattle.hs_pure.specs.Truth.{value};
ghost use Rattle.hs_core.specs.Machine.{stack_at, updated, moved, set_slot, returned_value};
ghost use Rattle.hs_core.specs.Sound.{IsUpTo, IsSlot};
ghost use Rattle.hs_machine.specs.Read.{slots_of, frame_of, TermsAreSlots, HasSlot};

use hs_pure::{Lin, NoMemory, Valuation, Var, Wide};
use sqlite_items::Items;
use std::alloc::Global;

// A frame of the machine. Slot k stands at k - 1.
#[derive(Debug, Drop)]
pub struct Frame {
    pub method: u32,
    pub point: u32,
    pub slots: Items<i128>,
}

impl Frame {
    // The value in a slot.
    pub fn get(&self, slot: u32) -> i128
        requires { IsUpTo (length self.now.slots) slot }
        ensures { result ≡ slots_of self.now.slots slot }
    {
        self.slots.as_slice()[slot as usize - 1]
    }

    // Puts a value into a slot.
    pub fn set(&mut self, slot: u32, value: i128)
        requires { IsUpTo (length self.old.slots) slot }
        ensures frame { frame_of self.new ≡ record (frame_of self.old) { slots = updated (slots_of self.old.slots) slot value } }
        ensures slots { length self.new.slots ≡ length self.old.slots }
    {
        self.slots.set(slot as usize - 1, value);
    }

    // Puts a value into a slot and goes on.
    pub fn put(&mut self, slot: u32, value: i128)
        requires place { IsUpTo (length self.old.slots) slot }
        requires room { self.old.point + 1 < 2 ^ 32 }
        ensures frame { frame_of self.new ≡ set_slot (frame_of self.old) slot value }
        ensures slots { length self.new.slots ≡ length self.old.slots }
    {
        self.set(slot, value);
        self.point += 1;
    }

    // Goes on.
    pub fn advance(&mut self)
        requires { self.old.point + 1 < 2 ^ 32 }
        ensures frame { frame_of self.new ≡ moved (frame_of self.old) }
        ensures slots { self.new.slots ≡ self.old.slots }
    {
        self.point += 1;
    }

    // The value of a slot's variable.
    fn number(&self, slot: Var) -> i128
        requires { IsSlot (length self.now.slots) slot }
        ensures { result ≡ (stack_at (slots_of self.now.slots) slot).number }
    {
        self.get(slot.number)
    }

    // What a return gives.
    pub fn give(&self, from: Option<u32>) -> Option<i128>
        requires { HasSlot (length self.now.slots) from }
        ensures { result ≡ returned_value from (slots_of self.now.slots) }
    {
        match from {
            None => None,
            Some(slot) => Some(self.get(slot)),
        }
    }

    // The values in slots.
    pub fn get_all(&self, alloc: Global, slots: &[u32]) -> Result<Items<i128>, NoMemory>
        requires { All (IsUpTo (length self.now.slots)) slots.now }
        ensures { IfOk result (λ values. values ≡ map (slots_of self.now.slots) slots.now) }
    {
        let mut values = Items::new(alloc);
        for slot in slots {
            values.push(self.get(*slot))?;
        }
        Ok(values)
    }

    // The value of a term.
    pub fn value(&self, term: &Lin) -> Result<i128, Wide>
        requires { TermsAreSlots (length self.now.slots) term.now.terms }
        ensures { Gives result (SumFits (stack_at (slots_of self.now.slots)) term.now) (value (stack_at (slots_of self.now.slots)) term.now) }
    {
        let mut total = 0;
        for t in term.terms.as_slice() {
            total = sum(total, product(t.1, self.number(t.0))?)?;
        }
        sum(total, term.constant)
    }

    // The slots as values of variables.
    pub fn valuation(&self, alloc: Global) -> Result<Valuation, NoMemory>
        requires { length self.now.slots < 2 ^ 32 }
        ensures { IfOk result (λ v. stack_of v ≡ stack_at (slots_of self.now.slots)) }
    {
        let mut numbers = Items::new(alloc);
        let mut number = 0;
        for value in self.slots.as_slice() {
            number += 1;
            let slot = Var { number, bag: false };
            numbers.push((slot, *value))?;
        }
        Ok(Valuation {
            numbers,
            bags: Items::new(alloc),
        })
    }
}

fn product(a: i128, b: i128) -> Result<i128, Wide>
    ensures { Gives result (FitsSigned w128 (a *ℤ b)) (a *ℤ b) }
{
    match a.checked_mul(b) {
        Some(product) => Ok(product),
        None => Err(Wide),
    }
}

fn sum(a: i128, b: i128) -> Result<i128, Wide>
    ensures { Gives result (FitsSigned w128 (a +ℤ b)) (a +ℤ b) }
{
    match a.checked_add(b) {
        Some(sum) => Ok(sum),
        None => Err(Wide),
    }
}
