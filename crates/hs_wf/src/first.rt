//! The first fault of definitions.

ghost use Rattle.std.specs.Prelude.{◌≡◌, ◌<◌, ◌-◌, ◌^◌, length, IfOk, IfErr, OnOk, MatchOption};
ghost use Rattle.std.specs.List.{All};
ghost use Rattle.hs_heap.specs.Sound.{IsSound};
ghost use Rattle.hs_wf.specs.Founded.{names_of, PredIsFounded, IsFounded};
ghost use Rattle.hs_wf.specs.Faults.{IsFirstInCases, IsFirstInPreds, IsFirstFault, error_of};

use crate::WfError;
use crate::case::{CaseFault, SELF, case_fault};
use hs_heap::{Defs, PredDef};
use hs_pure::{NoMemory, Var};
use std::alloc::Global;

fn names(alloc: Global, pred: &PredDef) -> Result<Vec<Var>, NoMemory>
    ensures { IfOk result (λ names. names.items ≡ names_of pred.now) }
{
    let mut names = Vec::new(alloc);
    names.push(SELF)?;
    names.extend_from_slice(pred.params.as_slice())?;
    Ok(names)
}

// The place of the first case with a fault, and the fault.
fn first_in_cases(alloc: Global, pred: &PredDef) -> Result<Option<(usize, CaseFault)>, NoMemory>
    ensures { IfOk result (λ found. MatchOption found (PredIsFounded pred.now) (λ f. IsFirstInCases (names_of pred.now) pred.now.body.cases f.0 f.1)) }
{
    let names = names(alloc, pred)?;
    for (i, case) in pred.body.cases.as_slice().iter().enumerate() {
        if let Some(fault) = case_fault(alloc, &names, case)? {
            return Ok(Some((i, fault)));
        }
    }
    Ok(None)
}

// The places of the first predicate with a fault and of its case, and the fault.
fn first_in_preds(
    alloc: Global,
    preds: &[PredDef],
) -> Result<Option<(usize, usize, CaseFault)>, NoMemory>
    ensures { IfOk result (λ found. MatchOption found (All PredIsFounded preds.now) (λ f. IsFirstInPreds preds.now f.0 f.1 f.2)) }
{
    for (n, pred) in preds.iter().enumerate() {
        if let Some((i, fault)) = first_in_cases(alloc, pred)? {
            return Ok(Some((n, i, fault)));
        }
    }
    Ok(None)
}

fn error_at(pred: u32, case: u32, fault: CaseFault) -> WfError
    ensures { result ≡ error_of pred case fault }
{
    match fault {
        CaseFault::RootPredicate => WfError::RootPredicate(pred, case),
        CaseFault::NoRoot => WfError::NoRoot(pred, case),
        CaseFault::Unreached(v) => WfError::Unreached(pred, case, v),
    }
}

/// Whether definitions are founded. Otherwise it answers the first fault: by predicate, then by case, and of one
/// case a predicate at its root, then not one node there, then the first root that is not reached.
pub fn founded(alloc: Global, defs: &Defs) -> Result<(), WfError>
    requires sound { IsSound defs.now }
    requires few { length defs.now.preds < 2 ^ 32 - 1 }
    ensures founded { OnOk result (IsFounded defs.now) }
    ensures first { IfErr result (IsFirstFault defs.now) }
{
    match first_in_preds(alloc, defs.preds.as_slice())? {
        None => Ok(()),
        Some((n, i, fault)) => Err(error_at(n as u32 + 1, i as u32 + 1, fault)),
    }
}
