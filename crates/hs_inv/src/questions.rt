//! The question that shows an invariant.

ghost use Rattle.std.specs.Prelude.{◌≡◌, ◌≤◌, ◌^◌, Some, IsSome, IfOk};
ghost use Rattle.std.specs.Option.{option_copied};
ghost use Rattle.hs_heap.specs.declared.definitions.PredDef.{PredDef};
ghost use Rattle.hs_heap.specs.Meaning.{pred_at};
ghost use Rattle.hs_heap.specs.Sound.{IsSound};
ghost use Rattle.hs_decide.specs.Span.{IsSpent};
ghost use Rattle.hs_xpure.specs.Invariants.{invariant_premise};
ghost use Rattle.hs_inv.specs.Answer.{question_of, IsInvAnswer, IsDecidedInv};

use crate::answer::{InvAnswer, inv_answer};
use hs_decide::implies;
use hs_heap::{Defs, PredDef};
use hs_pure::{NoMemory, Pure, Var};
use hs_xpure::{
    XError, body, premise_can_be_asked, premise_can_be_formed, premise_is_low, premise_takes_few,
};
use std::alloc::Global;

const SELF: Var = Var {
    number: 1,
    bag: false,
};

/// What is true of the body of a predicate, by number from 1, at `self` and its own parameters: its approximation
/// at level 0, with new numbers from the predicate's `next` on. The definitions are sound. `NoMemory` comes where
/// there is none.
pub fn premise(alloc: Global, defs: &Defs, pred: u32, p: &PredDef) -> Result<Pure, NoMemory>
    requires sound { IsSound defs.now }
    requires there { pred_at defs.now pred ≡ Some p.now }
    ensures exact { IfOk result (λ q. q ≡ invariant_premise defs.now p.now) }
{
    premise_can_be_formed();
    premise_takes_few();
    match body(alloc, defs, pred, 0, SELF, p.params.as_slice(), p.next) {
        Ok((premise, _)) => Ok(premise),
        Err(XError::Memory) => Err(NoMemory),
        Err(XError::Numbers) => unreachable!(),
    }
}

// The predicate of a number from 1.
fn pred_of(defs: &Defs, pred: u32) -> Option<&PredDef>
    ensures { option_copied result ≡ pred_at defs.now pred }
{
    if pred == 0 {
        return None;
    }
    defs.preds.as_slice().get(pred as usize - 1)
}

// Whether the invariant of this predicate follows.
fn invariant_of(
    alloc: Global,
    defs: &Defs,
    pred: u32,
    p: &PredDef,
    atoms: u64,
) -> Result<InvAnswer, NoMemory>
    requires sound { IsSound defs.now }
    requires there { pred_at defs.now pred ≡ Some p.now }
    requires small { atoms ≤ 2 ^ 30 }
    ensures answer { IfOk result (IsInvAnswer defs.now p.now atoms) }
    ensures decided { IfOk result (λ r. (¬ (IsSpent atoms (question_of defs.now p.now))) → IsDecidedInv r) }
{
    premise_can_be_asked();
    premise_is_low();
    // On the heap, so that it is dropped by one call and not case by case.
    let premise = Box::new(alloc, premise(alloc, defs, pred, p)?)?;
    let answer = implies(alloc, &premise, &p.inv, atoms)?;
    Ok(inv_answer(answer))
}

/// Whether the invariant of a predicate, by number from 1, follows from its body. The definitions are sound, the
/// predicate is there, and `atoms` is at most 2^30.
///
/// The answer is that of `implies` to the question whether [`premise`] implies the invariant. `Atoms` comes only
/// where a stage of its plain decision has more than `atoms` atoms, and `Wide` only where a number of it passes 128
/// bits. `NoMemory` comes where there is none.
pub fn invariant(alloc: Global, defs: &Defs, pred: u32, atoms: u64) -> Result<InvAnswer, NoMemory>
    requires sound { IsSound defs.now }
    requires there { IsSome (pred_at defs.now pred) }
    requires small { atoms ≤ 2 ^ 30 }
    ensures answer { IfOk result (λ r. (p : PredDef) → pred_at defs.now pred ≡ Some p → IsInvAnswer defs.now p atoms r) }
    ensures decided { IfOk result (λ r. (p : PredDef) → pred_at defs.now pred ≡ Some p → (¬ (IsSpent atoms (question_of defs.now p))) → IsDecidedInv r) }
{
    let Some(p) = pred_of(defs, pred) else {
        unreachable!()
    };
    invariant_of(alloc, defs, pred, p, atoms)
}
