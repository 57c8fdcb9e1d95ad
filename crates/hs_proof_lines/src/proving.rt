//! The line of `prove`.

ghost use Rattle.std.specs.Prelude.{◌≡◌, ◌≤◌, ◌<◌, ◌-◌, ◌^◌, ◌∷◌, [], length, map, Some, IfOk, OnOk};
ghost use Rattle.std.specs.List.{All, AllZip, list_any};
ghost use Rattle.std.specs.Option.{option_copied};
ghost use Rattle.hs_claims.specs.Claims.{goal_of};
ghost use Rattle.hs_core.specs.Machine.{method_of};
ghost use Rattle.hs_core.specs.Set.{IsSet};
ghost use Rattle.hs_core.specs.Sound.{IsSoundProgram, IsUpTo};
ghost use Rattle.hs_goal.specs.Shape.{GoalFits};
ghost use Rattle.hs_heap.specs.Meaning.{pred_at};
ghost use Rattle.hs_heap.specs.Sound.{IsSound};
ghost use Rattle.hs_judge.specs.Named.{item_at};
ghost use Rattle.hs_lower_sound.specs.Laws.{MethodIsKept};
ghost use Rattle.hs_numbering.specs.declared.names.Names.{Names as NamesValue};
ghost use Rattle.hs_pred_lines.specs.Lines.{IsPredicateLine, ArePredicateLines, names_at};
ghost use Rattle.hs_search.specs.Answer.{LimitsFit};
ghost use Rattle.hs_proof_lines.specs.Growing.{Adds};
ghost use Rattle.hs_proof_lines.specs.Proved.{IsProofReport, Subject, invariant_subjects, is_open, method_subjects, pair_subjects, report_line, subjects_of};

use crate::numbers::number_of;
use crate::subjects::Prover;
use crate::written::Written;
use hs_core::Program;
use hs_dtext::{ClaimLine, write_proved};
use hs_goal::Limits;
use hs_heap::{Defs, PredDef};
use hs_norm::{MethodTree, Names, Resolved};
use hs_pred_lines::predicate_lines;
use hs_print::Line;
use hs_pure::NoMemory;
use hs_text::Text;
use sqlite_items::Items;
use std::alloc::Global;

// The source names of the predicate of a number from 1.
fn names_of(all: &[Names], number: u32) -> Option<&Names>
    ensures { option_copied result ≡ names_at all.now number }
{
    if number == 0 {
        return None;
    }
    all.get(number as usize - 1)
}

// The line of the predicate of a number from 1.
fn line_of(lines: &[Line], number: u32) -> Option<&Line>
    ensures { option_copied result ≡ item_at lines.now number }
{
    if number == 0 {
        return None;
    }
    lines.get(number as usize - 1)
}

impl Prover<'_> {
    // Writes the invariant of a predicate by its number.
    fn write_numbered(
        &self,
        alloc: Global,
        written: &mut Written,
        number: u32,
        pred: &PredDef,
        line: &Line,
    ) -> Result<(), NoMemory>
        requires there { pred_at self.now.resolved.now.defs number ≡ Some pred.now }
        requires told { IsPredicateLine self.now.resolved.now self.now.limits.now.atoms number line.now }
        ensures { (names : NamesValue) → names_at self.now.resolved.now.pred_names number ≡ Some names → OnOk result (Adds self.now.resolved.now.defs self.now.program.now self.now.limits.now self.now.unshown.now (Subject.invariant number pred.now names ∷ []) written.old written.new) }
    {
        let Some(names) = names_of(self.resolved.pred_names.as_slice(), number) else {
            unreachable!()
        };
        self.write_invariant(alloc, written, number, pred, names, line)
    }

    // Writes the invariants, of which these lines tell.
    fn write_invariants(
        &self,
        alloc: Global,
        written: &mut Written,
        lines: &[Line],
    ) -> Result<(), NoMemory>
        requires told { ArePredicateLines self.now.resolved.now self.now.limits.now.atoms lines.now }
        requires few { length self.now.resolved.now.defs.preds < 2 ^ 32 - 1 }
        ensures { OnOk result (Adds self.now.resolved.now.defs self.now.program.now self.now.limits.now self.now.unshown.now (invariant_subjects 1 self.now.resolved.now.defs.preds self.now.resolved.now.pred_names) written.old written.new) }
    {
        let mut number = 1u32;
        for pred in self.resolved.defs.preds.as_slice() {
            let Some(line) = line_of(lines, number) else {
                unreachable!()
            };
            self.write_numbered(alloc, written, number, pred, line)?;
            number += 1;
        }
        Ok(())
    }

    // Writes the entailments.
    fn write_entailments(&self, alloc: Global, written: &mut Written) -> Result<(), NoMemory>
        requires sound { IsSound self.now.resolved.now.defs }
        requires goals { All (λ e. GoalFits self.now.resolved.now.defs (goal_of e)) self.now.resolved.now.entailments }
        requires limits { LimitsFit self.now.limits.now }
        ensures { OnOk result (Adds self.now.resolved.now.defs self.now.program.now self.now.limits.now self.now.unshown.now (map Subject.entailment self.now.resolved.now.entailments) written.old written.new) }
    {
        for e in self.resolved.entailments.as_slice() {
            self.write_entailment(alloc, written, e)?;
        }
        Ok(())
    }

    // Writes the pairs of the method of a number.
    fn write_pairs(
        &self,
        alloc: Global,
        written: &mut Written,
        m: u32,
        method: &MethodTree,
    ) -> Result<(), NoMemory>
        requires sound { IsSound self.now.resolved.now.defs }
        requires program { IsSoundProgram self.now.resolved.now.defs self.now.program.now }
        requires set { IsSet self.now.program.now }
        requires limits { LimitsFit self.now.limits.now }
        requires there { IsUpTo (length self.now.program.now.methods) m }
        requires kept { length (method_of self.now.program.now m).pairs ≡ length method.now.pairs }
        ensures { OnOk result (Adds self.now.resolved.now.defs self.now.program.now self.now.limits.now self.now.unshown.now (pair_subjects m 1 method.now.pairs) written.old written.new) }
    {
        let _ = number_of(method.pairs.len())?;
        let mut i = 0;
        for pair in method.pairs.as_slice() {
            i += 1;
            self.write_pair(alloc, written, m, i, pair)?;
        }
        Ok(())
    }

    // Writes the pairs of all methods.
    fn write_methods(&self, alloc: Global, written: &mut Written) -> Result<(), NoMemory>
        requires sound { IsSound self.now.resolved.now.defs }
        requires program { IsSoundProgram self.now.resolved.now.defs self.now.program.now }
        requires set { IsSet self.now.program.now }
        requires limits { LimitsFit self.now.limits.now }
        requires kept { AllZip MethodIsKept self.now.resolved.now.methods self.now.program.now.methods }
        ensures { OnOk result (Adds self.now.resolved.now.defs self.now.program.now self.now.limits.now self.now.unshown.now (method_subjects 1 self.now.resolved.now.methods) written.old written.new) }
    {
        let _ = number_of(self.resolved.methods.len())?;
        let mut m = 0;
        for method in self.resolved.methods.as_slice() {
            m += 1;
            self.write_pairs(alloc, written, m, method)?;
        }
        Ok(())
    }

    // Writes all claims.
    fn write_all(
        &self,
        alloc: Global,
        written: &mut Written,
        lines: &[Line],
    ) -> Result<(), NoMemory>
        requires sound { IsSound self.now.resolved.now.defs }
        requires goals { All (λ e. GoalFits self.now.resolved.now.defs (goal_of e)) self.now.resolved.now.entailments }
        requires few { length self.now.resolved.now.defs.preds < 2 ^ 32 - 1 }
        requires program { IsSoundProgram self.now.resolved.now.defs self.now.program.now }
        requires set { IsSet self.now.program.now }
        requires kept { AllZip MethodIsKept self.now.resolved.now.methods self.now.program.now.methods }
        requires limits { LimitsFit self.now.limits.now }
        requires told { ArePredicateLines self.now.resolved.now self.now.limits.now.atoms lines.now }
        ensures { OnOk result (Adds self.now.resolved.now.defs self.now.program.now self.now.limits.now self.now.unshown.now (subjects_of self.now.resolved.now) written.old written.new) }
    {
        self.write_invariants(alloc, written, lines)?;
        self.write_entailments(alloc, written)?;
        self.write_methods(alloc, written)
    }
}

// Whether a claim is open.
fn any_open(lines: &[ClaimLine]) -> bool
    ensures { result ≡ list_any is_open lines.now }
{
    lines
        .iter()
        .any(|line| matches!(line, ClaimLine::Open(_, _)))
}

// The line of what is written.
fn report(alloc: Global, defs: &Defs, written: &Written) -> Result<Items<Line>, NoMemory>
    ensures { IfOk result (λ lines. lines ≡ report_line defs.now written.now.nodes written.now.lines ∷ []) }
{
    let lines = written.lines.as_slice();
    let text = write_proved(alloc, defs, written.nodes.as_slice(), lines)?;
    let line = Line::DerivationText(Text::new(text), any_open(lines));
    Ok(Items::from_vec(vec![in alloc; line]?))
}

/// The line of `prove`: the text of a derivation of the claims of a source and its program that are proved, with a line for
/// each claim, and whether one is open. The definitions are sound and without lemmas, each predicate has its source
/// names, there are fewer than 2^32 - 1 of them, and the goals of the entailments are well formed. The program is sound and
/// set, and its methods are those of the source. The limits are in their ranges. `NoMemory` comes where there is none, and
/// where there would be more than 2^32 - 1 nodes or claims.
pub fn proof_lines(
    alloc: Global,
    resolved: &Resolved,
    program: &Program,
    limits: &Limits,
) -> Result<Items<Line>, NoMemory>
    requires sound { IsSound resolved.now.defs }
    requires no_lemmas { resolved.now.defs.lemmas ≡ [] }
    requires goals { All (λ e. GoalFits resolved.now.defs (goal_of e)) resolved.now.entailments }
    requires named { length resolved.now.pred_names ≡ length resolved.now.defs.preds }
    requires few_preds { length resolved.now.defs.preds < 2 ^ 32 - 1 }
    requires program { IsSoundProgram resolved.now.defs program.now }
    requires set { IsSet program.now }
    requires kept { AllZip MethodIsKept resolved.now.methods program.now.methods }
    requires limits { LimitsFit limits.now }
    ensures exact { IfOk result (IsProofReport resolved.now program.now limits.now) }
{
    let (lines, unshown) = predicate_lines(alloc, resolved, limits.atoms)?;
    let prover = Prover {
        resolved,
        program,
        limits,
        unshown: &unshown,
    };
    let mut written = Written {
        nodes: Items::new(alloc),
        lines: Items::new(alloc),
    };
    prover.write_all(alloc, &mut written, &lines)?;
    report(alloc, &resolved.defs, &written)
}
