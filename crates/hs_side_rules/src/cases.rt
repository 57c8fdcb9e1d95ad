//! One subgoal for each left disjunct, and a right disjunct that is taken.

ghost use Rattle.std.specs.Prelude.{◌≡◌, true, IfOk, length};
ghost use Rattle.hs_rules.specs.Conditions.{CanTakeCase};
ghost use Rattle.hs_rules.specs.Parts.{only};
ghost use Rattle.hs_rules.specs.Subgoals.{one_each, with_right_case};
ghost use Rattle.hs_sides.specs.Answers.{IsGiven};

use hs_goal::Goal;
use hs_heap::Disjunct;
use hs_pure::NoMemory;
use hs_sides::{RuleError, case_at, only, with_left, with_right};
use sqlite_items::Items;
use std::alloc::Global;

/// A subgoal for each left disjunct, in order. `NotApplicable` comes exactly where there is one left disjunct.
pub fn left_or(alloc: Global, goal: &Goal) -> Result<Items<Goal>, RuleError>
    ensures exact { IsGiven (¬ (length goal.now.left.cases ≡ 1)) (one_each goal.now goal.now.left.cases) result }
{
    if goal.left.cases.len() == 1 {
        return Err(RuleError::NotApplicable);
    }
    Ok(each_case(alloc, goal)?)
}

fn each_case(alloc: Global, goal: &Goal) -> Result<Items<Goal>, NoMemory>
    ensures { IfOk result (λ subs. subs ≡ one_each goal.now goal.now.left.cases) }
{
    let mut subs = Items::new(alloc);
    for case in goal.left.cases.as_slice() {
        let left = only(alloc, case.copy(alloc)?)?;
        subs.push(with_left(alloc, goal, left, goal.next)?)?;
    }
    Ok(subs)
}

/// The goal with a right disjunct, by place from 1, as its right side. `NotApplicable` comes exactly where there is
/// no such disjunct, or there are fewer than two.
pub fn right_or(alloc: Global, goal: &Goal, i: u32) -> Result<Goal, RuleError>
    ensures exact { IsGiven (CanTakeCase goal.now i) (with_right_case goal.now i) result }
{
    if goal.right.cases.len() < 2 {
        return Err(RuleError::NotApplicable);
    }
    let Some(case) = case_at(goal.right.cases.as_slice(), i) else {
        return Err(RuleError::NotApplicable);
    };
    Ok(take_case(alloc, goal, case)?)
}

fn take_case(alloc: Global, goal: &Goal, case: &Disjunct) -> Result<Goal, NoMemory>
    ensures { IfOk result (λ sub. sub ≡ record goal.now { right = only case.now; looked = true }) }
{
    let opens = Items::from_slice(alloc, goal.opens.as_slice())?;
    let right = only(alloc, case.copy(alloc)?)?;
    with_right(alloc, goal, opens, right, goal.next)
}
