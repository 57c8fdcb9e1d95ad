//! The tests of a step, one after another.

ghost use Rattle.std.specs.Prelude.{◌≡◌, ◌↔◌, ◌≤◌, ◌^◌, IfOk, IsTrue};
ghost use Rattle.hs_heap.specs.Sound.{IsSound};
ghost use Rattle.hs_goal.specs.Shape.{GoalFits};
ghost use Rattle.hs_rules.specs.Residues.{residue_of};
ghost use Rattle.hs_question.specs.Steps.{HasResidue};
ghost use Rattle.hs_rules.specs.Rules.{Applies};
ghost use Rattle.hs_erule.specs.Judged.{GoalsAre, goals_of, residues_of, IsJudged, IsDecidedTo};

use crate::asking::answer;
use hs_check::{NodeAnswer, Reason};
use hs_goal::{ERule, Goal};
use hs_heap::{Defs, Formula};
use hs_pure::NoMemory;
use hs_question::residue;
use hs_sides::RuleError;
use hs_subgoals::subgoals;
use sqlite_items::Items;
use std::alloc::Global;

/// Whether a goal with a residue follows from premises, goals with residues in order, by a rule. The definitions are
/// sound, and `atoms` is at most 2^30.
///
/// `Wrong` has the first test that fails, in the order of [`Reason`]. `Numbers`, `Atoms` and `Wide` come only where
/// all tests but that of the question pass: `Numbers` where its approximation takes more than 2^30 new numbers, `Atoms`
/// where a stage of its plain decision has more than `atoms` atoms, and `Wide` where a number of that passes 128 bits.
/// `NoMemory` comes where there is none.
pub fn right(
    alloc: Global,
    defs: &Defs,
    goal: &Goal,
    residue: &Formula,
    rule: &ERule,
    premises: &[(Goal, Formula)],
    atoms: u64,
) -> Result<NodeAnswer, NoMemory>
    requires sound { IsSound defs.now }
    requires small { atoms ≤ 2 ^ 30 }
    ensures judged { IfOk result (IsJudged defs.now goal.now residue.now rule.now premises.now atoms) }
    ensures decided { IfOk result (IsDecidedTo defs.now goal.now rule.now atoms) }
{
    if goal.shape(alloc, defs)? {
        by_rule(alloc, defs, goal, residue, rule, premises, atoms)
    } else {
        Ok(NodeAnswer::Wrong(Reason::Shape))
    }
}

// The same of a well-formed goal.
fn by_rule(
    alloc: Global,
    defs: &Defs,
    goal: &Goal,
    residue: &Formula,
    rule: &ERule,
    premises: &[(Goal, Formula)],
    atoms: u64,
) -> Result<NodeAnswer, NoMemory>
    requires sound { IsSound defs.now }
    requires small { atoms ≤ 2 ^ 30 }
    requires fits { GoalFits defs.now goal.now }
    ensures judged { IfOk result (IsJudged defs.now goal.now residue.now rule.now premises.now atoms) }
    ensures decided { IfOk result (IsDecidedTo defs.now goal.now rule.now atoms) }
{
    match subgoals(alloc, defs, goal, rule) {
        Ok(subs) => {
            if conclude(premises, subs.as_slice()) {
                by_residue(alloc, defs, goal, residue, rule, premises, atoms)
            } else {
                Ok(NodeAnswer::Wrong(Reason::Premise))
            }
        }
        Err(RuleError::NotApplicable) => Ok(NodeAnswer::Wrong(Reason::Rule)),
        Err(RuleError::Memory) => Err(NoMemory),
    }
}

// Whether the goals of the premises are these.
fn conclude(premises: &[(Goal, Formula)], subs: &[Goal]) -> bool
    ensures { IsTrue result ↔ (goals_of premises.now ≡ subs.now) }
{
    match (premises, subs) {
        ([], []) => true,
        ([premise, premises @ ..], [sub, subs @ ..]) => {
            premise.0.same(sub) && conclude(premises, subs)
        }
        _ => false,
    }
}

// The same where the premises' goals are the subgoals.
fn by_residue(
    alloc: Global,
    defs: &Defs,
    goal: &Goal,
    residue: &Formula,
    rule: &ERule,
    premises: &[(Goal, Formula)],
    atoms: u64,
) -> Result<NodeAnswer, NoMemory>
    requires sound { IsSound defs.now }
    requires small { atoms ≤ 2 ^ 30 }
    requires fits { GoalFits defs.now goal.now }
    requires applies { Applies defs.now goal.now rule.now }
    requires goals_are { GoalsAre defs.now goal.now rule.now premises.now }
    ensures judged { IfOk result (IsJudged defs.now goal.now residue.now rule.now premises.now atoms) }
    ensures decided { IfOk result (IsDecidedTo defs.now goal.now rule.now atoms) }
{
    let expected = expected(alloc, goal, rule, premises)?;
    if residue.same(&expected) {
        answer(alloc, defs, goal, rule, atoms)
    } else {
        Ok(NodeAnswer::Wrong(Reason::Residue))
    }
}

// The residue of the premises' residues.
fn expected(
    alloc: Global,
    goal: &Goal,
    rule: &ERule,
    premises: &[(Goal, Formula)],
) -> Result<Formula, NoMemory>
    requires step { HasResidue goal.now rule.now (residues_of premises.now) }
    ensures same { IfOk result (λ f. f ≡ residue_of goal.now rule.now (residues_of premises.now)) }
{
    let rests = residues(alloc, premises)?;
    residue(alloc, goal, rule, rests.as_slice())
}

// Copies of the premises' residues.
fn residues(alloc: Global, premises: &[(Goal, Formula)]) -> Result<Items<Formula>, NoMemory>
    ensures { IfOk result (λ all. all ≡ residues_of premises.now) }
{
    let mut all = Items::new(alloc);
    for premise in premises {
        all.push(premise.1.copy(alloc)?)?;
    }
    Ok(all)
}
