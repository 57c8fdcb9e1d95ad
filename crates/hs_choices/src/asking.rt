//! The question of a rule, answered.

ghost use Rattle.std.specs.Prelude.{◌≡◌, ◌↔◌, ◌≤◌, ◌^◌, IfOk, IfErr, IsTrue};
ghost use Rattle.hs_heap.specs.Sound.{IsSound};
ghost use Rattle.hs_xpure.specs.Laws.{CanBeAsked, HasLowNumbers};
ghost use Rattle.hs_goal.specs.declared.rule.Obligation.TheVariants.{NotImplied};
ghost use Rattle.hs_goal.specs.Shape.{GoalFits};
ghost use Rattle.hs_question.specs.Asked.{SidesAreLow};
ghost use Rattle.hs_rules.specs.Rules.{Applies, TakesTooMany};
ghost use Rattle.hs_rules.specs.Questions.{question_of, IsTrueQuestion};
ghost use Rattle.hs_choices.specs.declared.error.Spent.TheVariants.{Numbers, Atoms, Wide};
ghost use Rattle.hs_choices.specs.Tests.{is_answered};
ghost use Rattle.hs_choices.specs.Asked.{IsTold, IsReply, IsUsedUp, UsesUp, IfSpent};

use crate::error::{AskError, Spent};
use crate::laws::questions_are_told;
use hs_decide::{Answer, implies};
use hs_goal::{ERule, Goal, Obligation, Question};
use hs_heap::Defs;
use hs_pure::{NoMemory, Valuation};
use hs_question::{question, questions_can_be_asked};
use hs_xpure::XError;
use sqlite_items::Boxed;
use std::alloc::Global;

/// Why the question of a rule that applies to a well-formed goal is false: the question with values that make its left
/// side true and its right side false. `None` where the question is true, or the rule asks none. The definitions are
/// sound, and `atoms` is at most 2^30.
///
/// `Numbers` comes only where the approximation in the question takes more than 2^30 new numbers, `Atoms` where a stage
/// of its plain decision has more than `atoms` atoms, and `Wide` where a number of that passes 128 bits. `Memory`
/// comes where there is none.
pub fn ask(
    alloc: Global,
    defs: &Defs,
    goal: &Goal,
    rule: &ERule,
    atoms: u64,
) -> Result<Option<Obligation>, AskError>
    requires sound { IsSound defs.now }
    requires fits { GoalFits defs.now goal.now }
    requires applies { Applies defs.now goal.now rule.now }
    requires small { atoms ≤ 2 ^ 30 }
    ensures reply { IfOk result (IsReply defs.now goal.now rule.now) }
    ensures spent { IfErr result (IfSpent (UsesUp defs.now goal.now rule.now atoms)) }
{
    questions_can_be_asked();
    questions_are_told();
    match asked(alloc, defs, goal, rule)? {
        Some(q) => refutation(alloc, q.get(), atoms),
        None => Ok(None),
    }
}

/// Whether the question of a rule is true, if it asks one. Conditions and stops are those of [`ask`].
pub fn is_answered(
    alloc: Global,
    defs: &Defs,
    goal: &Goal,
    rule: &ERule,
    atoms: u64,
) -> Result<bool, AskError>
    requires sound { IsSound defs.now }
    requires fits { GoalFits defs.now goal.now }
    requires applies { Applies defs.now goal.now rule.now }
    requires small { atoms ≤ 2 ^ 30 }
    ensures exact { IfOk result (λ b. b ≡ is_answered (question_of defs.now goal.now rule.now)) }
    ensures spent { IfErr result (IfSpent (UsesUp defs.now goal.now rule.now atoms)) }
{
    questions_can_be_asked();
    questions_are_told();
    match asked(alloc, defs, goal, rule)? {
        Some(q) => is_true(alloc, q.get(), atoms),
        None => Ok(true),
    }
}

// The question of a rule, on the heap, so that it is dropped by one call and not case by case.
fn asked(
    alloc: Global,
    defs: &Defs,
    goal: &Goal,
    rule: &ERule,
) -> Result<Option<Boxed<Question>>, AskError>
    requires sound { IsSound defs.now }
    requires fits { GoalFits defs.now goal.now }
    requires applies { Applies defs.now goal.now rule.now }
    ensures exact { IfOk result (λ q. q ≡ question_of defs.now goal.now rule.now) }
    ensures spent { IfErr result (IfSpent (λ s. (s ≡ Numbers) × TakesTooMany defs.now goal.now rule.now)) }
    ensures low { IfOk result SidesAreLow }
{
    match question(alloc, defs, goal, rule) {
        Ok(Some(q)) => Ok(Some(boxed(alloc, q)?)),
        Ok(None) => Ok(None),
        Err(XError::Numbers) => Err(AskError::Spent(Spent::Numbers)),
        Err(XError::Memory) => Err(AskError::Memory),
    }
}

fn boxed(alloc: Global, q: Question) -> Result<Boxed<Question>, NoMemory>
    ensures { IfOk result (λ b. b ≡ q) }
{
    Ok(Boxed::new(alloc, q)?)
}

// Values at which a question is false, if it is.
fn refutation(alloc: Global, q: &Question, atoms: u64) -> Result<Option<Obligation>, AskError>
    requires left { CanBeAsked q.now.left }
    requires right { CanBeAsked q.now.right }
    requires left_low { HasLowNumbers q.now.left }
    requires right_low { HasLowNumbers q.now.right }
    requires small { atoms ≤ 2 ^ 30 }
    ensures told { IfOk result (IsTold q.now) }
    ensures spent { IfErr result (IfSpent (IsUsedUp q.now atoms)) }
{
    match implies(alloc, &q.left, &q.right, atoms)? {
        Answer::Yes => Ok(None),
        Answer::No(values) => Ok(Some(not_implied(alloc, q, values)?)),
        Answer::Atoms => Err(AskError::Spent(out_of_atoms(alloc, q)?)),
        Answer::Wide => Err(AskError::Spent(too_wide(alloc, q)?)),
    }
}

// Whether a question is true.
fn is_true(alloc: Global, q: &Question, atoms: u64) -> Result<bool, AskError>
    requires left { CanBeAsked q.now.left }
    requires right { CanBeAsked q.now.right }
    requires left_low { HasLowNumbers q.now.left }
    requires right_low { HasLowNumbers q.now.right }
    requires small { atoms ≤ 2 ^ 30 }
    ensures told { IfOk result (λ b. IsTrue b ↔ IsTrueQuestion q.now) }
    ensures spent { IfErr result (IfSpent (IsUsedUp q.now atoms)) }
{
    match implies(alloc, &q.left, &q.right, atoms)? {
        Answer::Yes => Ok(true),
        Answer::No(_) => Ok(false),
        Answer::Atoms => Err(AskError::Spent(out_of_atoms(alloc, q)?)),
        Answer::Wide => Err(AskError::Spent(too_wide(alloc, q)?)),
    }
}

fn not_implied(alloc: Global, q: &Question, values: Valuation) -> Result<Obligation, NoMemory>
    ensures { IfOk result (λ o. o ≡ NotImplied q.now values) }
{
    Ok(Obligation::NotImplied(q.copy(alloc)?, values))
}

fn out_of_atoms(alloc: Global, q: &Question) -> Result<Spent, NoMemory>
    ensures { IfOk result (λ s. s ≡ Atoms q.now) }
{
    Ok(Spent::Atoms(q.copy(alloc)?))
}

fn too_wide(alloc: Global, q: &Question) -> Result<Spent, NoMemory>
    ensures { IfOk result (λ s. s ≡ Wide q.now) }
{
    Ok(Spent::Wide(q.copy(alloc)?))
}
