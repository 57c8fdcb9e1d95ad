//! Why claims are open.

ghost use Rattle.std.specs.Prelude.{◌≡◌, Some, IfOk};
ghost use Rattle.hs_pred_lines.specs.Lines.{IsTold};
ghost use Rattle.hs_print.specs.Line.{why_text};
ghost use Rattle.hs_print.specs.Pure.{pure_text};
ghost use Rattle.hs_print.specs.declared.why.Why.TheVariants as cause;
ghost use Rattle.hs_proof_lines.specs.Growing.{IsInvariantAnswer, IsOutcome};
ghost use Rattle.hs_proof_lines.specs.Open as spec;

use crate::subjects::Prover;
use crate::written::Outcome;
use hs_causes::why;
use hs_goal::Cause;
use hs_heap::PredDef;
use hs_norm::{Names, PairTree};
use hs_print::{Line, Why, Word, pure, push_why};
use hs_pure::NoMemory;
use hs_text::Text;
use hs_verify::HipAnswer;
use std::alloc::Global;

/// The text of a cause.
pub fn cause_text(alloc: Global, cause: &Why) -> Result<Text, NoMemory>
    ensures { IfOk result (λ text. text ≡ why_text cause.now) }
{
    let mut out = String::new(alloc);
    push_why(&mut out, cause)?;
    Ok(Text::new(out))
}

/// The cause of all entailments and pairs where the invariant of this predicate is not shown.
pub fn barred_text(alloc: Global, pred: &Text) -> Result<Text, NoMemory>
    ensures { IfOk result (λ text. text ≡ why_text (cause.Invariant pred.now)) }
{
    cause_text(alloc, &Why::Invariant(pred.copy(alloc)?))
}

fn invariant_text(alloc: Global, pred: &PredDef, names: &Names) -> Result<Text, NoMemory>
    ensures { IfOk result (λ text. text ≡ pure_text (Some names.now) pred.now.inv) }
{
    Ok(Text::new(pure(alloc, &pred.inv, names)?))
}

impl Prover<'_> {
    /// Why the invariant of a predicate is not shown, where its line says that it is not.
    pub fn invariant_why(
        &self,
        alloc: Global,
        pred: &PredDef,
        names: &Names,
        line: &Line,
    ) -> Result<Option<Why>, NoMemory>
        requires told { IsTold self.now.resolved.now.defs pred.now names.now self.now.limits.now.atoms line.now }
        ensures { IfOk result (IsInvariantAnswer self.now.resolved.now.defs pred.now names.now self.now.limits.now.atoms) }
    {
        match line {
            Line::Shown(_) => Ok(None),
            Line::Fails(_, values) => {
                let text = invariant_text(alloc, pred, names)?;
                Ok(Some(Why::NotImplied(text, values.copy(alloc)?)))
            }
            Line::InvStopped(_, Word::AtomsSpent) => {
                Ok(Some(Why::Atoms(invariant_text(alloc, pred, names)?)))
            }
            Line::InvStopped(_, Word::PastBits) => {
                Ok(Some(Why::Wide(invariant_text(alloc, pred, names)?)))
            }
            _ => unreachable!(),
        }
    }

    // The text of the first cause at a state of a pair.
    fn first_why(&self, alloc: Global, pair: &PairTree, causes: &[Cause]) -> Result<Text, NoMemory>
        ensures { IfOk result (λ text. text ≡ spec.first_why self.now.resolved.now.defs pair.now self.now.limits.now causes.now) }
    {
        let Some(cause) = causes.first() else {
            return Ok(Text::from_str(alloc, "")?);
        };
        let defs = &self.resolved.defs;
        let first = why(alloc, defs, &pair.names, pair.next, self.limits, cause)?;
        cause_text(alloc, &first)
    }

    // That there are more states than the limit of goals.
    fn states_text(&self, alloc: Global) -> Result<Text, NoMemory>
        ensures { IfOk result (λ text. text ≡ spec.states_text self.now.limits.now) }
    {
        let goals = self.limits.goals;
        Ok(Text::new(format!(in alloc; "more than {goals} states")?))
    }

    /// What an answer says of a pair.
    pub fn outcome(
        &self,
        alloc: Global,
        pair: &PairTree,
        answer: HipAnswer,
    ) -> Result<Outcome, NoMemory>
        ensures { IfOk result (IsOutcome self.now.resolved.now.defs pair.now self.now.limits.now answer) }
    {
        match answer {
            HipAnswer::Accepted(found) => Ok(Outcome::Proved(found.nodes)),
            HipAnswer::Unknown(_, causes) => {
                Ok(Outcome::Open(self.first_why(alloc, pair, causes.as_slice())?))
            }
            HipAnswer::States(_) => Ok(Outcome::Open(self.states_text(alloc)?)),
            HipAnswer::Numbers(_) => Ok(Outcome::Open(Text::from_str(alloc, "numbers spent")?)),
        }
    }
}
