//! A line for each entailment.

ghost use Rattle.std.specs.Prelude.{◌≡◌, ◌<◌, ◌-◌, ◌^◌, [], None, length, map, IfOk};
ghost use Rattle.std.specs.List.{All};
ghost use Rattle.hs_heap.specs.Sound.{IsSound};
ghost use Rattle.hs_xpure.specs.Invariants.{InvariantsHold};
ghost use Rattle.hs_goal.specs.Shape.{GoalFits};
ghost use Rattle.hs_search.specs.Answer.{LimitsFit};
ghost use Rattle.hs_entail_lines.specs.Lines as spec;
ghost use Rattle.hs_claims.specs.Claims.{goal_of};
ghost use Rattle.hs_entail_lines.specs.Lines.{IsVerdict, IsEntailmentLine, AreEntailmentLines};

use hs_causes::why;
use hs_claims::goal_of;
use hs_erule::Proof;
use hs_goal::Limits;
use hs_heap::Defs;
use hs_norm::Entailment;
use hs_print::{Line, Why, formula};
use hs_pure::NoMemory;
use hs_search::{SleekAnswer, prove};
use hs_steps::{proofs_hold, residue_shown};
use hs_text::Text;
use sqlite_items::Items;
use std::alloc::Global;

fn printed_residue(
    alloc: Global,
    defs: &Defs,
    e: &Entailment,
    proof: &Proof,
) -> Result<Text, NoMemory>
    ensures { IfOk result (λ text. text ≡ spec.printed_residue defs.now e.now proof.now) }
{
    let residue = residue_shown(alloc, proof)?;
    Ok(Text::new(formula(alloc, &residue, &e.names, defs)?))
}

// The printed residues of proofs.
fn printed_residues(
    alloc: Global,
    defs: &Defs,
    e: &Entailment,
    proofs: &[Proof],
) -> Result<Items<Text>, NoMemory>
    ensures { IfOk result (λ texts. texts ≡ map (spec.printed_residue defs.now e.now) proofs.now) }
{
    let mut texts = Items::new(alloc);
    for proof in proofs {
        texts.push(printed_residue(alloc, defs, e, proof)?)?;
    }
    Ok(texts)
}

// The verdict on an entailment, by its number.
fn verdict(
    alloc: Global,
    defs: &Defs,
    number: u32,
    e: &Entailment,
    limits: &Limits,
) -> Result<Line, NoMemory>
    requires sound { IsSound defs.now }
    requires no_lemmas { defs.now.lemmas ≡ [] }
    requires invariants { InvariantsHold defs.now }
    requires fits { GoalFits defs.now (goal_of e.now) }
    requires limits { LimitsFit limits.now }
    ensures { IfOk result (IsVerdict defs.now limits.now number e.now) }
{
    proofs_hold();
    let goal = goal_of(alloc, e)?;
    match prove(alloc, defs, &goal, limits)? {
        SleekAnswer::Valid(proofs) => {
            let texts = printed_residues(alloc, defs, e, proofs.as_slice())?;
            Ok(Line::Valid(number, texts))
        }
        SleekAnswer::Unknown(cause) => {
            Ok(Line::Unknown(number, why(alloc, defs, &e.names, e.next, limits, &cause)?))
        }
    }
}

// The line of an entailment, by its number.
fn entailment_line(
    alloc: Global,
    defs: &Defs,
    unshown: &Option<Text>,
    number: u32,
    e: &Entailment,
    limits: &Limits,
) -> Result<Line, NoMemory>
    requires sound { IsSound defs.now }
    requires no_lemmas { defs.now.lemmas ≡ [] }
    requires invariants { unshown.now ≡ None → InvariantsHold defs.now }
    requires fits { GoalFits defs.now (goal_of e.now) }
    requires limits { LimitsFit limits.now }
    ensures { IfOk result (IsEntailmentLine defs.now limits.now unshown.now number e.now) }
{
    match unshown {
        Some(pred) => Ok(Line::Unknown(number, Why::Invariant(pred.copy(alloc)?))),
        None => verdict(alloc, defs, number, e, limits),
    }
}

/// A line for each entailment, in order, by numbers from 1. The definitions are sound and without lemmas, and where
/// there is no predicate whose invariant is `unshown`, all invariants hold. The goals of the entailments are well formed,
/// there are fewer than 2^32 - 1 of them, and the limits are in their ranges. `NoMemory` comes where there is none.
pub fn entailment_lines(
    alloc: Global,
    defs: &Defs,
    entailments: &[Entailment],
    unshown: &Option<Text>,
    limits: &Limits,
) -> Result<Vec<Line>, NoMemory>
    requires sound { IsSound defs.now }
    requires no_lemmas { defs.now.lemmas ≡ [] }
    requires invariants { unshown.now ≡ None → InvariantsHold defs.now }
    requires fits { All (λ e. GoalFits defs.now (goal_of e)) entailments.now }
    requires few { length entailments.now < 2 ^ 32 - 1 }
    requires limits { LimitsFit limits.now }
    // What each line says is true.
    ensures lines { IfOk result (λ lines. AreEntailmentLines defs.now limits.now unshown.now entailments.now lines.items) }
    ensures each { IfOk result (λ lines. length lines.items ≡ length entailments.now) }
{
    let mut lines = Vec::new(alloc);
    let mut number = 1u32;
    for e in entailments {
        lines.push(entailment_line(alloc, defs, unshown, number, e, limits)?)?;
        number += 1;
    }
    Ok(lines)
}
