//! A line for each predicate.

ghost use Rattle.std.specs.Prelude.{◌≡◌, ◌≤◌, ◌<◌, ◌-◌, ◌^◌, length, Some, None, IsSome, IfOk};
ghost use Rattle.std.specs.Option.{option_copied};
ghost use Rattle.hs_heap.specs.Meaning.{pred_at};
ghost use Rattle.hs_heap.specs.Sound.{IsSound};
ghost use Rattle.hs_xpure.specs.Invariants.{InvariantsHold};
ghost use Rattle.hs_pred_lines.specs.Lines as spec;
ghost use Rattle.hs_pred_lines.specs.Lines.{names_at, IsTold, IsPredicateLine, ArePredicateLines, first_unshown};

use crate::values::values_text;
use hs_heap::{Defs, PredDef};
use hs_inv::{InvAnswer, invariant};
use hs_norm::{Names, Resolved};
use hs_print::{Line, Word};
use hs_pure::NoMemory;
use hs_text::Text;
use hs_xpure::invariants_are_shown;
use std::alloc::Global;

// The line of a predicate, by its number, that has these names.
fn line_told(
    alloc: Global,
    defs: &Defs,
    number: u32,
    pred: &PredDef,
    names: &Names,
    atoms: u64,
) -> Result<Line, NoMemory>
    requires sound { IsSound defs.now }
    requires there { pred_at defs.now number ≡ Some pred.now }
    requires small { atoms ≤ 2 ^ 30 }
    ensures { IfOk result (IsTold defs.now pred.now names.now atoms) }
{
    let name = pred.name.copy(alloc)?;
    match invariant(alloc, defs, number, atoms)? {
        InvAnswer::Shown => Ok(Line::Shown(name)),
        InvAnswer::Fails(v) => Ok(Line::Fails(
            name,
            values_text(alloc, defs, number, pred, names, &v)?,
        )),
        InvAnswer::Atoms => Ok(Line::InvStopped(name, Word::AtomsSpent)),
        InvAnswer::Wide => Ok(Line::InvStopped(name, Word::PastBits)),
    }
}

// The source names of the predicate of a number from 1.
fn names_of(all: &[Names], number: u32) -> Option<&Names>
    ensures { option_copied result ≡ names_at all.now number }
{
    if number == 0 {
        return None;
    }
    all.get(number as usize - 1)
}

// The line of a predicate, by its number.
fn predicate_line(
    alloc: Global,
    resolved: &Resolved,
    number: u32,
    pred: &PredDef,
    atoms: u64,
) -> Result<Line, NoMemory>
    requires sound { IsSound resolved.now.defs }
    requires there { pred_at resolved.now.defs number ≡ Some pred.now }
    requires named { length resolved.now.pred_names ≡ length resolved.now.defs.preds }
    requires small { atoms ≤ 2 ^ 30 }
    ensures { IfOk result (IsPredicateLine resolved.now atoms number) }
{
    let Some(names) = names_of(resolved.pred_names.as_slice(), number) else {
        unreachable!()
    };
    line_told(alloc, &resolved.defs, number, pred, names, atoms)
}

// A line for each predicate, in order.
fn told_lines(alloc: Global, resolved: &Resolved, atoms: u64) -> Result<Vec<Line>, NoMemory>
    requires sound { IsSound resolved.now.defs }
    requires named { length resolved.now.pred_names ≡ length resolved.now.defs.preds }
    requires few { length resolved.now.defs.preds < 2 ^ 32 - 1 }
    requires small { atoms ≤ 2 ^ 30 }
    ensures { IfOk result (λ lines. ArePredicateLines resolved.now atoms lines.items) }
{
    let mut lines = Vec::new(alloc);
    let mut number = 1u32;
    for pred in resolved.defs.preds.as_slice() {
        lines.push(predicate_line(alloc, resolved, number, pred, atoms)?)?;
        number += 1;
    }
    Ok(lines)
}

// The predicate that a line does not show.
fn unshown(line: &Line) -> Option<&Text>
    ensures { option_copied result ≡ spec.unshown line.now }
{
    match line {
        Line::Fails(name, _) | Line::InvStopped(name, _) => Some(name),
        _ => None,
    }
}

// The first predicate that is not shown.
fn first_of(alloc: Global, lines: &[Line]) -> Result<Option<Text>, NoMemory>
    ensures { IfOk result (λ name. name ≡ first_unshown lines.now) }
{
    for line in lines {
        if let Some(name) = unshown(line) {
            return Ok(Some(name.copy(alloc)?));
        }
    }
    Ok(None)
}

/// A line for each predicate, in order, and the name of the first that is not shown. The definitions are sound, each
/// predicate has its source names, there are fewer than 2^32 - 1, and `atoms` is at most 2^30: it bounds the atoms of a
/// stage of a plain decision. `NoMemory` comes where there is none.
pub fn predicate_lines(
    alloc: Global,
    resolved: &Resolved,
    atoms: u64,
) -> Result<(Vec<Line>, Option<Text>), NoMemory>
    requires sound { IsSound resolved.now.defs }
    requires named { length resolved.now.pred_names ≡ length resolved.now.defs.preds }
    requires few { length resolved.now.defs.preds < 2 ^ 32 - 1 }
    requires small { atoms ≤ 2 ^ 30 }
    // What each line says is true.
    ensures lines { IfOk result (λ r. ArePredicateLines resolved.now atoms r.0.items) }
    ensures first { IfOk result (λ r. r.1 ≡ first_unshown r.0.items) }
    // Where all are shown, every heap that satisfies a predicate makes its invariant true.
    ensures hold { IfOk result (λ r. r.1 ≡ None → InvariantsHold resolved.now.defs) }
{
    invariants_are_shown();
    let lines = told_lines(alloc, resolved, atoms)?;
    let first = first_of(alloc, &lines)?;
    Ok((lines, first))
}
