//! The rules without subgoals.

ghost use Rattle.std.specs.Prelude.{◌≡◌, ◌↔◌, [], IsTrue};
ghost use Rattle.hs_rules.specs.Conditions.{CanBeFalse, CanBeEmpty};
ghost use Rattle.hs_sides.specs.Answers.{IsGiven};

use crate::bags::are_apart;
use hs_goal::Goal;
use hs_sides::{RuleError, simple_case};
use sqlite_items::Items;
use std::alloc::Global;

// The greatest level of an approximation.
const MAX_LEVEL: u32 = 3;

/// No subgoals, where the left side may be asked for a contradiction by the approximation of level `n`.
/// `NotApplicable` comes exactly where the left side is not simple, or the level is more than 3.
pub fn close_false(alloc: Global, goal: &Goal, n: u32) -> Result<Items<Goal>, RuleError>
    ensures exact { IsGiven (CanBeFalse goal.now n) [] result }
{
    if !can_be_false(goal, n) {
        return Err(RuleError::NotApplicable);
    }
    Ok(Items::new(alloc))
}

fn can_be_false(goal: &Goal, n: u32) -> bool
    ensures { IsTrue result ↔ CanBeFalse goal.now n }
{
    n <= MAX_LEVEL && simple_case(&goal.left).is_some()
}

/// No subgoals, where the left side may be asked for the right conjuncts by the approximation of level `n`.
/// `NotApplicable` comes exactly where a side is not simple, the right side has an atom, a right conjunct has both an
/// open variable and a bag literal, or the level is more than 3.
pub fn close_empty(alloc: Global, goal: &Goal, n: u32) -> Result<Items<Goal>, RuleError>
    ensures exact { IsGiven (CanBeEmpty goal.now n) [] result }
{
    if !can_be_empty(goal, n) {
        return Err(RuleError::NotApplicable);
    }
    Ok(Items::new(alloc))
}

fn can_be_empty(goal: &Goal, n: u32) -> bool
    ensures { IsTrue result ↔ CanBeEmpty goal.now n }
{
    let Some(right) = simple_case(&goal.right) else {
        return false;
    };
    can_be_false(goal, n)
        && right.atoms.is_empty()
        && are_apart(goal.opens.as_slice(), right.pure.as_slice())
}
