//! A right conjunct that gives an open variable its value.

ghost use Rattle.std.specs.Prelude.{◌≡◌, ◌↔◌, ◌++◌, ◌∷◌, [], true, IfOk, IsTrue};
ghost use Rattle.std.specs.List.{All};
ghost use Rattle.hs_heap.specs.WellFormed.{IsProper};
ghost use Rattle.hs_goal.specs.Classes.{IsSimple};
ghost use Rattle.hs_rules.specs.Conditions.{CanInstantiate};
ghost use Rattle.hs_rules.specs.Parts.{IsPlace, conjunct_at, plain, without, still_open, right_pure};
ghost use Rattle.hs_rules.specs.Subgoals.{instantiated_by};
ghost use Rattle.hs_sides.specs.Answers.{IsGiven};

use crate::equations::is_equation;
use crate::sides::{alone, longer, shorter, still_open};
use hs_goal::Goal;
use hs_heap::Disjunct;
use hs_pure::{NoMemory, Pure};
use hs_sides::{RuleError, conjunct_at, copy_atoms, simple_case};
use std::alloc::Global;

/// The goal with a right conjunct, by place from 1, on its left side in place of its right side: an equation for the
/// one open variable in it, which is open no more. `NotApplicable` comes exactly where a side is not simple, or
/// there is no such conjunct, or it is no such equation.
pub fn instantiate(alloc: Global, goal: &Goal, c: u32) -> Result<Goal, RuleError>
    requires { All IsProper (right_pure goal.now) }
    ensures exact { IsGiven (CanInstantiate goal.now c) (instantiated_by goal.now c) result }
{
    let Some(left) = simple_case(&goal.left) else {
        return Err(RuleError::NotApplicable);
    };
    let Some(right) = simple_case(&goal.right) else {
        return Err(RuleError::NotApplicable);
    };
    let Some(conjunct) = conjunct_at(right.pure.as_slice(), c) else {
        return Err(RuleError::NotApplicable);
    };
    if !may_move(goal, c, conjunct) {
        return Err(RuleError::NotApplicable);
    }
    Ok(move_conjunct(alloc, goal, left, right, c, conjunct)?)
}

// Whether the conjunct gives the one open variable in it a value.
fn may_move(goal: &Goal, c: u32, conjunct: &Pure) -> bool
    requires left { IsSimple goal.now.left }
    requires right { IsSimple goal.now.right }
    requires place { IsPlace c (right_pure goal.now) }
    requires found { conjunct.now ≡ conjunct_at c (right_pure goal.now) }
    requires ordered { All IsProper (right_pure goal.now) }
    ensures { IsTrue result ↔ CanInstantiate goal.now c }
{
    is_equation(goal.opens.as_slice(), conjunct)
}

// The conjunct moves to the left side.
fn move_conjunct(
    alloc: Global,
    goal: &Goal,
    left: &Disjunct,
    right: &Disjunct,
    c: u32,
    conjunct: &Pure,
) -> Result<Goal, NoMemory>
    requires { IsPlace c right.now.pure }
    ensures { IfOk result (λ sub. sub ≡ record goal.now { left = plain left.now.atoms (left.now.pure ++ conjunct.now ∷ []); opens = still_open conjunct.now goal.now.opens; right = plain right.now.atoms (without c right.now.pure); looked = true }) }
{
    Ok(Goal {
        used: copy_atoms(alloc, goal.used.as_slice())?,
        left: longer(alloc, left, alone(alloc, conjunct)?)?,
        opens: still_open(alloc, conjunct, goal.opens.as_slice())?,
        right: shorter(alloc, right, c)?,
        next: goal.next,
        looked: true,
    })
}
