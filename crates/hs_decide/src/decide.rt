//! Questions and their answers.

ghost use Rattle.std.specs.Prelude.{◌≡◌, ◌≤◌, ◌<◌, ◌^◌, IfOk, IsTrue};
ghost use Rattle.hs_pure.specs.declared.var.Var.{Var};
ghost use Rattle.hs_pure.specs.Assertion.{assertion_of, truth, negation};
ghost use Rattle.hs_pure.specs.Eval.{stack_of};
ghost use Rattle.hs_pure.specs.Occurs.{occurs, is_bags_plain};
ghost use Rattle.hs_pure.specs.Stack.{Stack};
ghost use Rattle.hs_pure.specs.Sums.{IsOrdered};
ghost use Rattle.hs_pure.specs.Truth.{TrueAt};
ghost use Rattle.hs_unit.specs.Question.{IsUnitQuestion};
ghost use Rattle.hs_decide.specs.Question.{question};
ghost use Rattle.hs_decide.specs.Size.{size_of};
ghost use Rattle.hs_decide.specs.Span.{SpanIsWide, IsSpent};
ghost use Rattle.hs_decide.specs.Answering.{IfNo, IsDecided, answer_of, IsVerdict};
ghost use Rattle.hs_decide.specs.declared.answer.Answer.TheVariants.{Yes, Atoms, Wide};

use crate::Answer;
use crate::conjuncts::seen;
use crate::counting::by_reduction;
use crate::formula::{counterexample, falsehood};
use hs_equations::Finding;
use hs_pure::{NoMemory, Pure};
use hs_reduction::bags_plain_is_of_assertion;
use hs_truth::plain_truth_is_decided;
use hs_unit::{Settled, unit};
use std::alloc::Global;

// The answer to a unit question.
fn answer_of(settled: Settled) -> Answer
    ensures { result ≡ answer_of settled }
{
    match settled {
        Settled::Yes => Answer::Yes,
        Settled::No(values) => Answer::No(values),
    }
}

/// Whether `a` implies `b` at all stacks. No bag literal of them stands under a quantifier or inside of an `all`, the
/// terms of their sums are in order, their numbers are below 2^31, and `atoms` is at most 2^30.
///
/// A unit question has one of the answers `Yes` and `No`, whatever `atoms` is. The question is `a` and not `b`. `Atoms`
/// comes only where a stage of its plain decision has more than `atoms` atoms, and `Wide` only where a number of it passes
/// 128 bits. `NoMemory` comes where there is none.
pub fn implies(alloc: Global, a: &Pure, b: &Pure, atoms: u64) -> Result<Answer, NoMemory>
    requires left_plain { IsTrue (is_bags_plain a.now) }
    requires right_plain { IsTrue (is_bags_plain b.now) }
    requires left_ordered { IsOrdered a.now }
    requires right_ordered { IsOrdered b.now }
    requires left_low { (v : Var) → IsTrue (occurs v a.now) → v.number < 2 ^ 31 }
    requires right_low { (v : Var) → IsTrue (occurs v b.now) → v.number < 2 ^ 31 }
    requires small { atoms ≤ 2 ^ 30 }
    ensures yes { IfOk result (λ r. r ≡ Yes → (s : Stack) → TrueAt s a.now → TrueAt s b.now) }
    ensures no { IfOk result (λ r. IfNo r (λ v. TrueAt (stack_of v) a.now × (¬ (TrueAt (stack_of v) b.now)))) }
    ensures unit { IfOk result (λ r. IsUnitQuestion (assertion_of a.now) (assertion_of b.now) → IsDecided r) }
    ensures atoms { IfOk result (λ r. r ≡ Atoms → atoms < size_of (question (assertion_of a.now) (assertion_of b.now))) }
    ensures wide { IfOk result (λ r. r ≡ Wide → SpanIsWide (question (assertion_of a.now) (assertion_of b.now))) }
    ensures decided { IfOk result (λ r. (¬ (IsSpent atoms (question (assertion_of a.now) (assertion_of b.now)))) → IsDecided r) }
{
    match unit(alloc, a, b)? {
        Some(settled) => Ok(answer_of(settled)),
        None => examined(alloc, a, b, atoms),
    }
}

// The same by rows of equations, where there are no bags, or else by the counts of bags.
fn examined(alloc: Global, a: &Pure, b: &Pure, atoms: u64) -> Result<Answer, NoMemory>
    requires left_plain { IsTrue (is_bags_plain a.now) }
    requires right_plain { IsTrue (is_bags_plain b.now) }
    requires left_ordered { IsOrdered a.now }
    requires right_ordered { IsOrdered b.now }
    requires left_low { (v : Var) → IsTrue (occurs v a.now) → v.number < 2 ^ 31 }
    requires right_low { (v : Var) → IsTrue (occurs v b.now) → v.number < 2 ^ 31 }
    requires small { atoms ≤ 2 ^ 30 }
    ensures { IfOk result (IsVerdict atoms a.now b.now) }
{
    match seen(alloc, a, b, atoms)? {
        Finding::Implied => Ok(Answer::Yes),
        Finding::Refuted(values) => Ok(Answer::No(values)),
        Finding::Open => counted(alloc, a, b, atoms),
    }
}

// The same by the counts of bags.
fn counted(alloc: Global, a: &Pure, b: &Pure, atoms: u64) -> Result<Answer, NoMemory>
    requires left_plain { IsTrue (is_bags_plain a.now) }
    requires right_plain { IsTrue (is_bags_plain b.now) }
    requires left_ordered { IsOrdered a.now }
    requires right_ordered { IsOrdered b.now }
    requires left_low { (v : Var) → IsTrue (occurs v a.now) → v.number < 2 ^ 31 }
    requires right_low { (v : Var) → IsTrue (occurs v b.now) → v.number < 2 ^ 31 }
    requires small { atoms ≤ 2 ^ 30 }
    ensures { IfOk result (IsVerdict atoms a.now b.now) }
{
    bags_plain_is_of_assertion();
    plain_truth_is_decided();
    let question = counterexample(alloc, a, b)?;
    by_reduction(alloc, question.get(), atoms)
}

/// Whether `a` is false at all stacks: whether it implies what is false. Conditions and stops are those of
/// `implies`.
pub fn unsat(alloc: Global, a: &Pure, atoms: u64) -> Result<Answer, NoMemory>
    requires plain { IsTrue (is_bags_plain a.now) }
    requires ordered { IsOrdered a.now }
    requires low { (v : Var) → IsTrue (occurs v a.now) → v.number < 2 ^ 31 }
    requires small { atoms ≤ 2 ^ 30 }
    ensures yes { IfOk result (λ r. r ≡ Yes → (s : Stack) → ¬ (TrueAt s a.now)) }
    ensures no { IfOk result (λ r. IfNo r (λ v. TrueAt (stack_of v) a.now)) }
    ensures atoms { IfOk result (λ r. r ≡ Atoms → atoms < size_of (question (assertion_of a.now) (negation truth))) }
    ensures wide { IfOk result (λ r. r ≡ Wide → SpanIsWide (question (assertion_of a.now) (negation truth))) }
    ensures decided { IfOk result (λ r. (¬ (IsSpent atoms (question (assertion_of a.now) (negation truth)))) → IsDecided r) }
{
    let never = falsehood(alloc)?;
    examined(alloc, a, never.get(), atoms)
}
