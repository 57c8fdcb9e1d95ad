//! The refusal of definitions that are not founded.

ghost use Rattle.std.specs.Prelude.{◌≡◌, ◌<◌, ◌-◌, ◌^◌, length, Some, IsSome, IfOk, MatchOption};
ghost use Rattle.std.specs.Option.{option_copied};
ghost use Rattle.hs_heap.specs.Meaning.{pred_at};
ghost use Rattle.hs_heap.specs.Sound.{IsSound};
ghost use Rattle.hs_wf.specs.Faults.{IsFirstFault};
ghost use Rattle.hs_print.specs.declared.refusal.Refusal.{Refusal};
ghost use Rattle.hs_founding.specs.Fault.{names_at, IsNamed, IsPrinted, HasFoundingFault};

use crate::laws::founded_have_no_fault;
use hs_heap::{Defs, PredDef};
use hs_norm::{Names, Resolved};
use hs_print::{Refusal, variable};
use hs_pure::{NoMemory, Var};
use hs_text::Text;
use hs_wf::{WfError, founded};
use std::alloc::Global;

// The predicate of a number from 1.
fn pred_of(defs: &Defs, number: u32) -> Option<&PredDef>
    ensures { option_copied result ≡ pred_at defs.now number }
{
    if number == 0 {
        return None;
    }
    defs.preds.as_slice().get(number as usize - 1)
}

// The source names of the predicate of a number from 1.
fn names_of(all: &[Names], number: u32) -> Option<&Names>
    ensures { option_copied result ≡ names_at all.now number }
{
    if number == 0 {
        return None;
    }
    all.get(number as usize - 1)
}

// The name of a predicate.
fn name(alloc: Global, resolved: &Resolved, number: u32) -> Result<Text, NoMemory>
    requires there { IsSome (pred_at resolved.now.defs number) }
    ensures { IfOk result (IsNamed resolved.now number) }
{
    let Some(pred) = pred_of(&resolved.defs, number) else {
        unreachable!()
    };
    Ok(pred.name.copy(alloc)?)
}

// A variable under the names of a predicate.
fn printed(alloc: Global, resolved: &Resolved, number: u32, v: Var) -> Result<Text, NoMemory>
    requires there { IsSome (pred_at resolved.now.defs number) }
    requires named { length resolved.now.pred_names ≡ length resolved.now.defs.preds }
    ensures { IfOk result (IsPrinted resolved.now number v) }
{
    let Some(names) = names_of(resolved.pred_names.as_slice(), number) else {
        unreachable!()
    };
    Ok(Text::new(variable(alloc, v, names)?))
}

// The refusal of a fault, which is the first.
fn refusal(alloc: Global, resolved: &Resolved, fault: WfError) -> Result<Refusal, NoMemory>
    requires first { IsFirstFault resolved.now.defs fault }
    requires named { length resolved.now.pred_names ≡ length resolved.now.defs.preds }
    ensures { IfOk result (HasFoundingFault resolved.now) }
{
    match fault {
        WfError::RootPredicate(number, case) => {
            Ok(Refusal::RootPredicate(name(alloc, resolved, number)?, case))
        }
        WfError::NoRoot(number, case) => {
            Ok(Refusal::NoRoot(name(alloc, resolved, number)?, case))
        }
        WfError::Unreached(number, case, v) => Ok(Refusal::Unreached(
            name(alloc, resolved, number)?,
            case,
            printed(alloc, resolved, number, v)?,
        )),
        WfError::Memory => Err(NoMemory),
    }
}

/// The refusal of definitions that are not founded. They are sound, each predicate has its source names, and there
/// are fewer than 2^32 - 1.
pub fn founding_fault(alloc: Global, resolved: &Resolved) -> Result<Option<Refusal>, NoMemory>
    requires sound { IsSound resolved.now.defs }
    requires few { length resolved.now.defs.preds < 2 ^ 32 - 1 }
    requires named { length resolved.now.pred_names ≡ length resolved.now.defs.preds }
    ensures { IfOk result (λ found. MatchOption found ((cause : Refusal) → HasFoundingFault resolved.now cause → ⊥) (HasFoundingFault resolved.now)) }
{
    founded_have_no_fault();
    match founded(alloc, &resolved.defs) {
        Ok(()) => Ok(None),
        Err(fault) => Ok(Some(refusal(alloc, resolved, fault)?)),
    }
}
