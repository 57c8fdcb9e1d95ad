//! A goal with a formula on its left side, and with its negation.

ghost use Rattle.std.specs.Prelude.{◌≡◌, ◌↔◌, ◌++◌, ◌∷◌, [], IfOk, OnOk, IsTrue};
ghost use Rattle.hs_pure.specs.declared.pure.Pure.TheVariants.{Not};
ghost use Rattle.hs_goal.specs.Classes.{the_case, IsSimple};
ghost use Rattle.hs_rules.specs.Conditions.{CanSplit};
ghost use Rattle.hs_sides.specs.Answers.{IsGiven};
ghost use Rattle.hs_side_rules.specs.Splitting.{split_by, MaySplit};

use crate::occurring::all_in_formula;
use crate::sides::{alone, with_more};
use hs_goal::Goal;
use hs_heap::{Disjunct, is_proper};
use hs_pure::{NoMemory, Pure, free_occurs};
use hs_sides::{RuleError, simple_case};
use sqlite_items::{Boxed, Items};
use std::alloc::Global;

/// The goal with the formula on its left side, and the goal with the formula's negation there. `NotApplicable`
/// comes exactly where the left side is not simple, the formula is an `And` or not in its normal form, or a variable
/// of the formula has a new number, is open, or is free in it and not in the goal.
pub fn split(alloc: Global, goal: &Goal, f: &Pure) -> Result<Items<Goal>, RuleError>
    ensures exact { IsGiven (CanSplit goal.now f.now) (split_by goal.now f.now) result }
{
    let Some(side) = simple_case(&goal.left) else {
        return Err(RuleError::NotApplicable);
    };
    if !may_split(goal, f) {
        return Err(RuleError::NotApplicable);
    }
    Ok(both(alloc, goal, side, f)?)
}

fn may_split(goal: &Goal, f: &Pure) -> bool
    requires { IsSimple goal.now.left }
    ensures { IsTrue result ↔ CanSplit goal.now f.now }
{
    free_occurs();
    is_divider(goal, f)
}

// Whether the formula alone may split the goal.
fn is_divider(goal: &Goal, f: &Pure) -> bool
    ensures { IsTrue result ↔ MaySplit goal.now f.now }
{
    !matches!(f, Pure::And(_)) && is_proper(f) && all_in_formula(f, goal, f)
}

fn both(alloc: Global, goal: &Goal, side: &Disjunct, f: &Pure) -> Result<Items<Goal>, NoMemory>
    requires { side.now ≡ the_case goal.now.left }
    ensures { IfOk result (λ subs. subs ≡ split_by goal.now f.now) }
{
    let mut subs = Items::new(alloc);
    subs.push(with_more(alloc, goal, side, alone(alloc, f)?)?)?;
    subs.push(with_more(alloc, goal, side, negation(alloc, f)?)?)?;
    Ok(subs)
}

// A list of the formula's negation alone.
fn negation(alloc: Global, f: &Pure) -> Result<Items<Pure>, NoMemory>
    ensures { IfOk result (λ all. all ≡ Not f.now ∷ []) }
{
    let mut all = Items::new(alloc);
    all.push(negated(alloc, f)?)?;
    Ok(all)
}

fn negated(alloc: Global, f: &Pure) -> Result<Pure, NoMemory>
    ensures { IfOk result (λ p. p ≡ Not f.now) }
{
    Ok(Pure::Not(Boxed::new(alloc, f.copy(alloc)?)?))
}
