//! New numbers for what a side binds.

ghost use Rattle.std.specs.Prelude.{◌≡◌, ◌+◌, ◌<◌, ◌≤◌, ◌^◌, IfOk, MatchOption, length};
ghost use Rattle.hs_heap.specs.Renamed.{renamed_disjunct};
ghost use Rattle.hs_goal.specs.Classes.{the_case};
ghost use Rattle.hs_rules.specs.Conditions.{BindsOnly};
ghost use Rattle.hs_rules.specs.Parts.{to_fresh};
ghost use Rattle.hs_rules.specs.Subgoals.{left_opened, right_opened};
ghost use Rattle.hs_sides.specs.Answers.{IsGiven};
ghost use Rattle.hs_side_rules.specs.Opening.{CanBeOpened, fresh_pairs};

use hs_goal::Goal;
use hs_heap::{Disjunct, apart_may_rename};
use hs_pure::{NoMemory, Var};
use hs_sides::{RuleError, binding_case, only, with_left, with_right};
use sqlite_items::Items;
use std::alloc::Global;

const MAX_NEXT: u32 = 1 << 30;

/// The goal with new numbers for what the one left disjunct binds, which it binds no more. `NotApplicable` comes
/// exactly where the left side is not one disjunct that binds, or where the new numbers would pass 2^30.
pub fn left_exists(alloc: Global, goal: &Goal) -> Result<Goal, RuleError>
    requires { CanBeOpened goal.now.next (the_case goal.now.left) }
    ensures exact { IsGiven (BindsOnly goal.now.left × ((left_opened goal.now (the_case goal.now.left)).next ≤ 2 ^ 30)) (left_opened goal.now (the_case goal.now.left)) result }
{
    let Some(case) = binding_case(&goal.left) else {
        return Err(RuleError::NotApplicable);
    };
    let Some(next) = next_after(goal.next, case.bound.len()) else {
        return Err(RuleError::NotApplicable);
    };
    Ok(open_left(alloc, goal, case, next)?)
}

/// The goal with new numbers for what the one right disjunct binds, which is open and no more bound.
/// `NotApplicable` comes exactly where the right side is not one disjunct that binds, or where the new numbers would
/// pass 2^30.
pub fn right_exists(alloc: Global, goal: &Goal) -> Result<Goal, RuleError>
    requires { CanBeOpened goal.now.next (the_case goal.now.right) }
    ensures exact { IsGiven (BindsOnly goal.now.right × ((right_opened goal.now (the_case goal.now.right)).next ≤ 2 ^ 30)) (right_opened goal.now (the_case goal.now.right)) result }
{
    let Some(case) = binding_case(&goal.right) else {
        return Err(RuleError::NotApplicable);
    };
    let Some(next) = next_after(goal.next, case.bound.len()) else {
        return Err(RuleError::NotApplicable);
    };
    Ok(open_right(alloc, goal, case, next)?)
}

// The number after so many new ones, at most 2^30.
fn next_after(next: u32, count: usize) -> Option<u32>
    requires { next ≤ 2 ^ 30 }
    ensures { MatchOption result (¬ (next + count ≤ 2 ^ 30)) (λ n. (next + count ≤ 2 ^ 30) × (n ≡ next + count)) }
{
    if count > (MAX_NEXT - next) as usize {
        return None;
    }
    Some(next + count as u32)
}

fn open_left(alloc: Global, goal: &Goal, case: &Disjunct, next: u32) -> Result<Goal, NoMemory>
    requires able { CanBeOpened goal.now.next case.now }
    requires next { next ≡ goal.now.next + length case.now.bound }
    ensures { IfOk result (λ sub. sub ≡ left_opened goal.now case.now) }
{
    let Disjunct { atoms, pure, .. } = renamed(alloc, case, goal.next)?;
    let opened = Disjunct {
        bound: Items::new(alloc),
        atoms,
        pure,
    };
    with_left(alloc, goal, only(alloc, opened)?, next)
}

fn open_right(alloc: Global, goal: &Goal, case: &Disjunct, next: u32) -> Result<Goal, NoMemory>
    requires able { CanBeOpened goal.now.next case.now }
    requires next { next ≡ goal.now.next + length case.now.bound }
    ensures { IfOk result (λ sub. sub ≡ right_opened goal.now case.now) }
{
    let Disjunct { bound, atoms, pure } = renamed(alloc, case, goal.next)?;
    let opened = Disjunct {
        bound: Items::new(alloc),
        atoms,
        pure,
    };
    let mut opens = Items::from_slice(alloc, goal.opens.as_slice())?;
    opens.append(bound)?;
    with_right(alloc, goal, opens, only(alloc, opened)?, next)
}

// The disjunct with numbers from `next` on for what it binds.
fn renamed(alloc: Global, case: &Disjunct, next: u32) -> Result<Disjunct, NoMemory>
    requires able { CanBeOpened next case.now }
    requires room { next + length case.now.bound < 2 ^ 32 }
    ensures { IfOk result (λ d. d ≡ renamed_disjunct (to_fresh case.now.bound next) case.now) }
{
    let pairs = fresh_pairs(alloc, case.bound.as_slice(), next)?;
    apart_may_rename();
    case.put_names(alloc, pairs.as_slice())
}

// Each variable with a number of its own.
fn fresh_pairs(alloc: Global, vars: &[Var], next: u32) -> Result<Items<(Var, Var)>, NoMemory>
    requires { next + length vars.now < 2 ^ 32 }
    ensures { IfOk result (λ pairs. pairs ≡ fresh_pairs vars.now next) }
{
    let mut pairs = Items::new(alloc);
    let mut number = next;
    for v in vars {
        pairs.push((*v, Var { number, bag: v.bag }))?;
        number += 1;
    }
    Ok(pairs)
}
