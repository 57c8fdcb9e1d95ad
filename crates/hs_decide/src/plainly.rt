//! Questions by the counts of their bags: rows of equations, then elimination alone.

ghost use Rattle.std.specs.Prelude.{◌≡◌, ◌≤◌, ◌^◌, ℕ, IfOk};
ghost use Rattle.hs_pure.specs.Assertion.{assertion_of};
ghost use Rattle.hs_pure.specs.Eval.{stack_of};
ghost use Rattle.hs_pure.specs.Truth.{TrueAt};
ghost use Rattle.hs_reduction.specs.Reduction.{bagless};
ghost use Rattle.hs_plain.specs.Span.{plain_values};
ghost use Rattle.hs_decide.specs.Answering.{IsAnswer};
ghost use Rattle.hs_decide.specs.Reduced.{IsReducedQuestion};

use crate::Answer;
use crate::formula::falsehood;
use crate::rows::by_equations;
use hs_cooper::Stop;
use hs_counts::{RebuildError, Reduced, rebuild_bags, rebuilt_by_counts};
use hs_equations::Finding;
use hs_plain::solution;
use hs_pure::{NoMemory, Pure, Valuation};
use hs_reduction::{
    bagless_has_no_bags, bagless_is_exact, bagless_is_ordered, bags_plain_is_of_assertion,
    rebuilt_bags_make_true,
};
use std::alloc::Global;

/// The answer to the question whether a formula has no solution, by its reduction. Where it has no bags, it was examined
/// before.
pub(crate) fn by_counts(
    alloc: Global,
    question: &Pure,
    reduced: &Reduced,
    atoms: u64,
) -> Result<Answer, NoMemory>
    requires reduced { IsReducedQuestion question.now reduced.now }
    requires small { atoms ≤ 2 ^ 30 }
    ensures { IfOk result (IsAnswer atoms question.now) }
{
    if question.has_bags() {
        by_rows(alloc, question, reduced, atoms)
    } else {
        by_elimination(alloc, question, reduced, atoms)
    }
}

// The same by rows of equations.
fn by_rows(
    alloc: Global,
    question: &Pure,
    reduced: &Reduced,
    atoms: u64,
) -> Result<Answer, NoMemory>
    requires reduced { IsReducedQuestion question.now reduced.now }
    requires small { atoms ≤ 2 ^ 30 }
    ensures { IfOk result (IsAnswer atoms question.now) }
{
    bagless_is_exact();
    bagless_has_no_bags();
    bagless_is_ordered();
    bags_plain_is_of_assertion();
    let never = falsehood(alloc)?;
    match by_equations(alloc, &reduced.pure, never.get(), atoms)? {
        Finding::Implied => Ok(Answer::Yes),
        Finding::Refuted(values) => with_values(alloc, question, reduced, &values, atoms),
        Finding::Open => by_elimination(alloc, question, reduced, atoms),
    }
}

// Where values make the reduction true.
fn with_values(
    alloc: Global,
    question: &Pure,
    reduced: &Reduced,
    values: &Valuation,
    atoms: u64,
) -> Result<Answer, NoMemory>
    requires reduced { IsReducedQuestion question.now reduced.now }
    requires solved { TrueAt (stack_of values.now) reduced.now.pure }
    requires small { atoms ≤ 2 ^ 30 }
    ensures { IfOk result (IsAnswer atoms question.now) }
{
    bags_plain_is_of_assertion();
    rebuilt_bags_make_true();
    rebuilt_by_counts();
    match rebuild_bags(alloc, reduced.counts.as_slice(), values) {
        Ok(rebuilt) => Ok(Answer::No(rebuilt)),
        Err(RebuildError::Wide) => by_elimination(alloc, question, reduced, atoms),
        Err(RebuildError::Memory) => Err(NoMemory),
    }
}

// By elimination alone.
fn by_elimination(
    alloc: Global,
    question: &Pure,
    reduced: &Reduced,
    atoms: u64,
) -> Result<Answer, NoMemory>
    requires reduced { IsReducedQuestion question.now reduced.now }
    requires small { atoms ≤ 2 ^ 30 }
    ensures { IfOk result (IsAnswer atoms question.now) }
{
    bagless_is_exact();
    bagless_has_no_bags();
    bagless_is_ordered();
    bags_plain_is_of_assertion();
    match solution(alloc, &reduced.pure, atoms) {
        Ok(Some(values)) => with_plain_values(alloc, question, reduced, &values),
        Ok(None) => Ok(Answer::Yes),
        Err(Stop::Atoms) => Ok(Answer::Atoms),
        Err(Stop::Wide) => Ok(Answer::Wide),
        Err(Stop::Memory) => Err(NoMemory),
    }
}

// Where the plain values make the reduction true.
fn with_plain_values(
    alloc: Global,
    question: &Pure,
    reduced: &Reduced,
    values: &Valuation,
) -> Result<Answer, NoMemory>
    requires reduced { IsReducedQuestion question.now reduced.now }
    requires solved { TrueAt (stack_of values.now) reduced.now.pure }
    requires plain { stack_of values.now ≡ plain_values (bagless (assertion_of question.now)) }
    ensures { (atoms : ℕ) → IfOk result (IsAnswer atoms question.now) }
{
    bags_plain_is_of_assertion();
    rebuilt_bags_make_true();
    rebuilt_by_counts();
    match rebuild_bags(alloc, reduced.counts.as_slice(), values) {
        Ok(rebuilt) => Ok(Answer::No(rebuilt)),
        Err(RebuildError::Wide) => Ok(Answer::Wide),
        Err(RebuildError::Memory) => Err(NoMemory),
    }
}
