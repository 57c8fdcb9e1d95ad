//! Whether a step of programs is right.

ghost use Rattle.std.specs.Prelude.{◌≡◌, ◌↔◌, map, IfOk, IsTrue, MatchOption};
ghost use Rattle.hs_heap.specs.Sound.{IsSound};
ghost use Rattle.hs_heap.specs.declared.formula.Formula.{Formula as Residue};
ghost use Rattle.hs_core.specs.Sound.{IsSoundProgram};
ghost use Rattle.hs_node.specs.declared.judgement.Judgement.TheVariants.{Entails, Runs};
ghost use Rattle.hs_program_rules.specs.States.{StateFits};
ghost use Rattle.hs_prule.specs.Judged.{IsJudged};
ghost use Rattle.hs_prule.specs.Following.{IsCompared, IsFollowed};

use crate::fits::state_fits;
use crate::goals::obligation;
use crate::premises::premises;
use hs_check::{NodeAnswer, Reason};
use hs_core::{At, PRule, Program};
use hs_goal::Goal;
use hs_heap::{Defs, Formula};
use hs_node::{Judgement, same_at};
use hs_pure::NoMemory;
use hs_sides::RuleError;
use sqlite_items::Items;
use std::alloc::Global;

/// Whether the rule gives the state from the premises, or else the first test that fails: `Shape` where the state is not
/// well formed, `Rule` where the rule does not apply, `Premise` where the premises are not those that it states, in
/// order. No other answer comes.
pub fn right(
    alloc: Global,
    program: &Program,
    defs: &Defs,
    at: &At,
    rule: &PRule,
    premises: &[Judgement],
) -> Result<NodeAnswer, NoMemory>
    requires sound { IsSound defs.now }
    requires program { IsSoundProgram defs.now program.now }
    ensures judged { IfOk result (IsJudged defs.now program.now at.now rule.now premises.now) }
{
    if !state_fits(program, defs, at) {
        return Ok(NodeAnswer::Wrong(Reason::Shape));
    }
    judged(alloc, program, defs, at, rule, premises)
}

// The same of a well-formed state.
fn judged(
    alloc: Global,
    program: &Program,
    defs: &Defs,
    at: &At,
    rule: &PRule,
    premises: &[Judgement],
) -> Result<NodeAnswer, NoMemory>
    requires sound { IsSound defs.now }
    requires program { IsSoundProgram defs.now program.now }
    requires fits { StateFits defs.now program.now at.now }
    ensures { IfOk result (IsJudged defs.now program.now at.now rule.now premises.now) }
{
    match obligation(alloc, program, defs, at, rule) {
        Err(RuleError::NotApplicable) => Ok(NodeAnswer::Wrong(Reason::Rule)),
        Err(RuleError::Memory) => Err(NoMemory),
        Ok(None) => {
            let none = Formula {
                cases: Items::new(alloc),
            };
            followed(alloc, program, defs, at, rule, &none, premises)
        }
        Ok(Some(goal)) => match premises {
            [] => Ok(NodeAnswer::Wrong(Reason::Premise)),
            [first, others @ ..] => match residue_of(&goal, first) {
                None => Ok(NodeAnswer::Wrong(Reason::Premise)),
                Some(residue) => followed(alloc, program, defs, at, rule, residue, others),
            },
        },
    }
}

// The residue that the judgement gives to the goal.
fn residue_of<'a>(goal: &Goal, first: &'a Judgement) -> Option<&'a Formula>
    ensures { MatchOption result ((f : Residue) → ¬ (first.now ≡ Entails goal.now f)) (λ f. first.now ≡ Entails goal.now f.now) }
{
    match first {
        Judgement::Entails(other, residue) => {
            if other.same(goal) {
                Some(residue)
            } else {
                None
            }
        }
        Judgement::Shown(_) => None,
        Judgement::Runs(_) => None,
    }
}

// Whether the rule gives the further premises by the residue.
fn followed(
    alloc: Global,
    program: &Program,
    defs: &Defs,
    at: &At,
    rule: &PRule,
    residue: &Formula,
    others: &[Judgement],
) -> Result<NodeAnswer, NoMemory>
    requires sound { IsSound defs.now }
    requires program { IsSoundProgram defs.now program.now }
    requires fits { StateFits defs.now program.now at.now }
    ensures { IfOk result (IsFollowed defs.now program.now at.now rule.now residue.now others.now) }
{
    match premises(alloc, program, defs, at, rule, residue) {
        Err(RuleError::NotApplicable) => Ok(NodeAnswer::Wrong(Reason::Rule)),
        Err(RuleError::Memory) => Err(NoMemory),
        Ok(states) => Ok(compared(others, states.as_slice())),
    }
}

fn compared(others: &[Judgement], states: &[At]) -> NodeAnswer
    ensures { IsCompared (others.now ≡ map (λ p. Runs p) states.now) result }
{
    if are_runs(others, states) {
        NodeAnswer::Right
    } else {
        NodeAnswer::Wrong(Reason::Premise)
    }
}

// Whether the judgements are of runs from the states, in order.
fn are_runs(others: &[Judgement], states: &[At]) -> bool
    ensures { IsTrue result ↔ (others.now ≡ map (λ p. Runs p) states.now) }
{
    match others {
        [] => states.is_empty(),
        [other, others @ ..] => match states {
            [] => false,
            [state, states @ ..] => is_run(other, state) && are_runs(others, states),
        },
    }
}

fn is_run(other: &Judgement, state: &At) -> bool
    ensures { IsTrue result ↔ (other.now ≡ Runs state.now) }
{
    match other {
        Judgement::Runs(at) => same_at(at, state),
        Judgement::Entails(_, _) => false,
        Judgement::Shown(_) => false,
    }
}
