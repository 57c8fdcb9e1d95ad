//! The question of a rule, answered.

ghost use Rattle.std.specs.Prelude.{◌≡◌, ◌≤◌, ◌^◌, IfOk};
ghost use Rattle.hs_heap.specs.Sound.{IsSound};
ghost use Rattle.hs_xpure.specs.Laws.{CanBeAsked, HasLowNumbers};
ghost use Rattle.hs_goal.specs.Shape.{GoalFits};
ghost use Rattle.hs_rules.specs.Rules.{Applies};
ghost use Rattle.hs_erule.specs.Judged.{IsVerdict, IsDecidedVerdict, verdict_of, IsAnswerTo, IsDecidedTo};

use hs_check::{NodeAnswer, Reason};
use hs_decide::{Answer, implies};
use hs_goal::{ERule, Goal, Question};
use hs_heap::Defs;
use hs_pure::NoMemory;
use hs_question::{question, questions_can_be_asked};
use hs_xpure::XError;
use std::alloc::Global;

fn verdict_of(answer: Answer) -> NodeAnswer
    ensures { result ≡ verdict_of answer }
{
    match answer {
        Answer::Yes => NodeAnswer::Right,
        Answer::No(_) => NodeAnswer::Wrong(Reason::Question),
        Answer::Atoms => NodeAnswer::Atoms,
        Answer::Wide => NodeAnswer::Wide,
    }
}

// The answer to a question.
fn verdict(alloc: Global, q: &Question, atoms: u64) -> Result<NodeAnswer, NoMemory>
    requires left { CanBeAsked q.now.left }
    requires right { CanBeAsked q.now.right }
    requires left_low { HasLowNumbers q.now.left }
    requires right_low { HasLowNumbers q.now.right }
    requires small { atoms ≤ 2 ^ 30 }
    ensures judged { IfOk result (IsVerdict atoms q.now) }
    ensures decided { IfOk result (IsDecidedVerdict atoms q.now) }
{
    let answer = implies(alloc, &q.left, &q.right, atoms)?;
    Ok(verdict_of(answer))
}

/// The answer to the question of a rule that applies to a well-formed goal.
pub fn answer(
    alloc: Global,
    defs: &Defs,
    goal: &Goal,
    rule: &ERule,
    atoms: u64,
) -> Result<NodeAnswer, NoMemory>
    requires sound { IsSound defs.now }
    requires small { atoms ≤ 2 ^ 30 }
    requires fits { GoalFits defs.now goal.now }
    requires applies { Applies defs.now goal.now rule.now }
    ensures judged { IfOk result (IsAnswerTo defs.now goal.now rule.now atoms) }
    ensures decided { IfOk result (IsDecidedTo defs.now goal.now rule.now atoms) }
{
    questions_can_be_asked();
    match question(alloc, defs, goal, rule) {
        Ok(None) => Ok(NodeAnswer::Right),
        Ok(Some(q)) => {
            // On the heap, so that it is dropped by one call and not case by case.
            let q = Box::new(alloc, q)?;
            verdict(alloc, &q, atoms)
        }
        Err(XError::Numbers) => Ok(NodeAnswer::Numbers),
        Err(XError::Memory) => Err(NoMemory),
    }
}
