//! The rules that are tried at a goal.

ghost use Rattle.std.specs.Prelude.{◌≡◌, ◌≤◌, ◌^◌, ◌++◌, map, IfOk, IfErr};
ghost use Rattle.hs_goal.specs.declared.rule.ERule.TheVariants as rule_of;
ghost use Rattle.std.specs.List.{All};
ghost use Rattle.hs_pure.specs.Sums.{IsOrdered};
ghost use Rattle.hs_heap.specs.Sound.{IsSound};
ghost use Rattle.hs_goal.specs.Classes.{IsSimple};
ghost use Rattle.hs_goal.specs.Shape.{GoalFits};
ghost use Rattle.hs_rules.specs.Parts.{right_pure};
ghost use Rattle.hs_choices.specs.Places.{all_places};
ghost use Rattle.hs_choices.specs.Asked.{IfSpent};
ghost use Rattle.hs_choices.specs.Choices.{choices, by_right, by_equation, by_empty, is_contradictory};
ghost use Rattle.hs_choices.specs.Stuck.{IsSpentAt};

use crate::asking::is_answered;
use crate::atoms::by_atoms;
use crate::error::AskError;
use crate::parts::{alone, atoms_of, binds, has_one_case, pure_of, push};
use crate::places::{first_equation, place};
use hs_goal::{ERule, Goal};
use hs_heap::{Defs, Disjunct};
use hs_pure::NoMemory;
use hs_subgoals::are_apart;
use sqlite_items::Boxed;
use std::alloc::Global;

/// The rules that are tried at a well-formed goal, in order. The level of approximations is at most 3; the other
/// conditions are those of [`crate::ask`], and so are the stops, which come only from the question whether the left side
/// contradicts itself.
#[tactic(auto, unfolding(crate::specs::Choices::choices))]
pub fn choices(
    alloc: Global,
    defs: &Defs,
    goal: &Goal,
    level: u32,
    atoms: u64,
) -> Result<Vec<ERule>, AskError>
    requires sound { IsSound defs.now }
    requires fits { GoalFits defs.now goal.now }
    requires small { atoms ≤ 2 ^ 30 }
    requires level { level ≤ 3 }
    ensures exact { IfOk result (λ rules. rules.items ≡ choices defs.now level goal.now) }
    ensures spent { IfErr result (IfSpent (IsSpentAt defs.now level atoms goal.now)) }
{
    if !has_one_case(&goal.left) {
        return Ok(alone(alloc, ERule::LeftOr)?);
    }
    if binds(&goal.left) {
        return Ok(alone(alloc, ERule::LeftExists)?);
    }
    if is_contradictory(alloc, defs, goal, level, atoms)? {
        return Ok(alone(alloc, ERule::False(level))?);
    }
    Ok(by_right(alloc, defs, goal, level)?)
}

// Whether the left side was not looked at and contradicts itself.
#[tactic(auto, unfolding(crate::specs::Choices::is_contradictory))]
fn is_contradictory(
    alloc: Global,
    defs: &Defs,
    goal: &Goal,
    level: u32,
    atoms: u64,
) -> Result<bool, AskError>
    requires sound { IsSound defs.now }
    requires fits { GoalFits defs.now goal.now }
    requires small { atoms ≤ 2 ^ 30 }
    requires level { level ≤ 3 }
    requires simple { IsSimple goal.now.left }
    ensures exact { IfOk result (λ b. b ≡ is_contradictory defs.now level goal.now) }
    ensures spent { IfErr result (IfSpent (IsSpentAt defs.now level atoms goal.now)) }
{
    if goal.looked {
        return Ok(false);
    }
    let rule = by_false(alloc, level)?;
    is_answered(alloc, defs, goal, rule.get(), atoms)
}

fn by_false(alloc: Global, level: u32) -> Result<Boxed<ERule>, NoMemory>
    ensures { IfOk result (λ rule. rule ≡ rule_of.False level) }
{
    Ok(Boxed::new(alloc, ERule::False(level))?)
}

// By the right side, where the left side is simple.
#[tactic(auto, unfolding(crate::specs::Choices::by_right))]
fn by_right(alloc: Global, defs: &Defs, goal: &Goal, level: u32) -> Result<Vec<ERule>, NoMemory>
    requires simple { IsSimple goal.now.left }
    requires ordered { All IsOrdered (right_pure goal.now) }
    ensures { IfOk result (λ rules. rules.items ≡ by_right defs.now level goal.now) }
{
    if !has_one_case(&goal.right) {
        return each_case(alloc, goal.right.cases.as_slice());
    }
    if binds(&goal.right) {
        return alone(alloc, ERule::RightExists);
    }
    match first_equation(goal)? {
        Some(c) => alone(alloc, ERule::Instantiate(c)),
        None => by_parts(alloc, defs, goal, level),
    }
}

// Each right disjunct.
fn each_case(alloc: Global, cases: &[Disjunct]) -> Result<Vec<ERule>, NoMemory>
    ensures { IfOk result (λ rules. rules.items ≡ map (λ i. rule_of.RightOr i) (all_places cases.now)) }
{
    let mut all = Vec::new(alloc);
    for i in 0..cases.len() {
        push(&mut all, ERule::RightOr(place(i)?))?;
    }
    Ok(all)
}

// Where no right conjunct gives an open variable its value.
fn by_parts(alloc: Global, defs: &Defs, goal: &Goal, level: u32) -> Result<Vec<ERule>, NoMemory>
    requires { IsSimple goal.now.left }
    ensures { IfOk result (λ rules. rules.items ≡ by_equation defs.now level goal.now None) }
{
    match atoms_of(&goal.right) {
        [] => by_empty(alloc, goal, level),
        [_, ..] => by_atoms(alloc, defs, goal),
    }
}

// Without right atoms.
#[tactic(auto, unfolding(crate::specs::Choices::by_empty))]
fn by_empty(alloc: Global, goal: &Goal, level: u32) -> Result<Vec<ERule>, NoMemory>
    ensures { IfOk result (λ rules. rules.items ≡ by_empty level goal.now) }
{
    if are_apart(goal.opens.as_slice(), pure_of(&goal.right)) {
        return alone(alloc, ERule::Empty(level));
    }
    Ok(Vec::new(alloc))
}
