//! The search for a goal.

ghost use Rattle.std.specs.Prelude.{◌≡◌, IfOk};
ghost use Rattle.hs_heap.specs.Sound.{IsSound};
ghost use Rattle.hs_goal.specs.Shape.{GoalFits};
ghost use Rattle.hs_search.specs.Sleek as spec;
ghost use Rattle.hs_search.specs.Answer.{LimitsFit, IsSearchAnswer};

use crate::answer::SleekAnswer;
use crate::sleek::Sleek;
use hs_calculus::{Answer, Bounds, Cause as Found, prove as search};
use hs_choices::{Spent, choices_have_conditions, questions_are_told};
use hs_erule::Proof;
use hs_goal::{Cause, Goal, Limits, Obligation};
use hs_heap::Defs;
use hs_pure::NoMemory;
use hs_rules::subgoals_are_well_formed;
use hs_steps::{joined_proofs_are_proofs, residue_is_shown};
use sqlite_items::Items;
use std::alloc::Global;

// A cause of the search of a calculus, as one of entailments.
fn cause_of(cause: Found<Spent, Obligation>) -> Cause
    ensures { result ≡ spec.cause_of cause }
{
    match cause {
        Found::Goals => Cause::Goals,
        Found::Spent(Spent::Numbers) => Cause::Numbers,
        Found::Spent(Spent::Atoms(question)) => Cause::Atoms(question),
        Found::Spent(Spent::Wide(question)) => Cause::Wide(question),
        Found::Rank => Cause::Rank,
        Found::Failed(obligation) => Cause::Failed(obligation),
    }
}

// An answer of the search of a calculus, as one of entailments.
fn answer_of(answer: Answer<Proof, Spent, Obligation>) -> SleekAnswer
    ensures { result ≡ spec.answer_of answer }
{
    match answer {
        Answer::Valid(proofs) => SleekAnswer::Valid(Items::from_vec(proofs)),
        Answer::Unknown(cause) => SleekAnswer::Unknown(cause_of(cause)),
    }
}

/// The first proofs of a goal, or why there are none. The definitions are sound, the goal is well formed, and the limits
/// are in their ranges.
///
/// `Goals` comes only where the tree of the goal at the rank has more goals than the limit; `Numbers`, `Atoms` and `Wide`
/// only where a choice or a question of the tree takes too many numbers, atoms or bits; `Rank` only where there is no
/// derivation of at most the rank, and a goal that all of it was used to reach has a fold, an unfold or a lemma step
/// among its choices; `Failed` only where there is no derivation of any rank. `NoMemory` comes where there is none.
pub fn prove(
    alloc: Global,
    defs: &Defs,
    goal: &Goal,
    limits: &Limits,
) -> Result<SleekAnswer, NoMemory>
    requires sound { IsSound defs.now }
    requires fits { GoalFits defs.now goal.now }
    requires limits { LimitsFit limits.now }
    ensures answer { IfOk result (IsSearchAnswer defs.now limits.now goal.now) }
{
    choices_have_conditions();
    questions_are_told();
    subgoals_are_well_formed();
    joined_proofs_are_proofs();
    residue_is_shown();
    let sleek = Sleek {
        defs,
        limits: *limits,
    };
    let bounds = Bounds {
        rank: limits.rank,
        goals: limits.goals,
        wanted: limits.residues,
    };
    let answer = search(&sleek, alloc, goal.copy(alloc)?, bounds)?;
    Ok(answer_of(answer))
}
