//! The subgoals of a rule.

ghost use Rattle.std.specs.Prelude.{◌≡◌, ◌∷◌, [], IfOk};
ghost use Rattle.hs_heap.specs.Sound.{IsSound};
ghost use Rattle.hs_goal.specs.Shape.{GoalFits};
ghost use Rattle.hs_subgoals.specs.Answers.{AreSubgoals, IsOneOf};

use crate::leaves::{close_empty, close_false};
use hs_atom_rules::{fold, match_atoms, unfold, use_lemma};
use hs_goal::{ERule, Goal};
use hs_heap::Defs;
use hs_pure::NoMemory;
use hs_side_rules::{
    fitting_cases_can_be_opened, instantiate, left_exists, left_or, right_exists, right_or, split,
};
use hs_sides::RuleError;
use sqlite_items::Items;
use std::alloc::Global;

/// The subgoals of a rule at a well-formed goal, in order. `NotApplicable` comes exactly where the rule's condition does
/// not hold, or where the new numbers of a subgoal would begin past 2^30.
pub fn subgoals(
    alloc: Global,
    defs: &Defs,
    goal: &Goal,
    rule: &ERule,
) -> Result<Items<Goal>, RuleError>
    requires sound { IsSound defs.now }
    requires fits { GoalFits defs.now goal.now }
    ensures exact { AreSubgoals defs.now goal.now rule.now result }
{
    fitting_cases_can_be_opened();
    match rule {
        ERule::LeftOr => left_or(alloc, goal),
        ERule::LeftExists => one_of(alloc, left_exists(alloc, goal)),
        ERule::False(n) => close_false(alloc, goal, *n),
        ERule::Split(f) => split(alloc, goal, f),
        ERule::RightOr(i) => one_of(alloc, right_or(alloc, goal, *i)),
        ERule::RightExists => one_of(alloc, right_exists(alloc, goal)),
        ERule::Instantiate(c) => one_of(alloc, instantiate(alloc, goal, *c)),
        ERule::Match(r, l) => one_of(alloc, match_atoms(alloc, goal, *r, *l)),
        ERule::Unfold(l) => one_of(alloc, unfold(alloc, defs, goal, *l)),
        ERule::Fold(r, i) => one_of(alloc, fold(alloc, defs, goal, *r, *i)),
        ERule::Empty(n) => close_empty(alloc, goal, *n),
        ERule::Lemma(j, l) => one_of(alloc, use_lemma(alloc, defs, goal, *j, *l)),
    }
}

// A list of the one subgoal that was found.
fn one_of(alloc: Global, found: Result<Goal, RuleError>) -> Result<Items<Goal>, RuleError>
    ensures { IsOneOf found result }
{
    Ok(alone(alloc, found?)?)
}

fn alone(alloc: Global, sub: Goal) -> Result<Items<Goal>, NoMemory>
    ensures { IfOk result (λ subs. subs ≡ sub ∷ []) }
{
    let mut subs = Items::new(alloc);
    subs.push(sub)?;
    Ok(subs)
}
