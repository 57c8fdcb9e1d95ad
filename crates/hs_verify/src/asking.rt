//! The search for the goal of a rule.

ghost use Rattle.std.specs.Prelude.{◌≤◌, ◌^◌, IfOk};
ghost use Rattle.hs_heap.specs.Sound.{IsSound};
ghost use Rattle.hs_goal.specs.Shape.{GoalFits};
ghost use Rattle.hs_core.specs.Sound.{IsSoundProgram};
ghost use Rattle.hs_program_rules.specs.States.{StateFits};
ghost use Rattle.hs_program_rules.specs.Table.{HasForm};
ghost use Rattle.hs_search.specs.Answer.{LimitsFit};
ghost use Rattle.hs_verify.specs.Asked.{IsAsked, IsSearched};

use hs_core::{At, PRule, Program};
use hs_erule::Proof;
use hs_goal::{Cause, Goal, Limits};
use hs_heap::Defs;
use hs_program_fits::asked_goals_fit;
use hs_prule::obligation;
use hs_pure::NoMemory;
use hs_search::{SleekAnswer, prove};
use hs_sides::RuleError;
use std::alloc::Global;

// What comes of the goal of a rule.
#[derive(Drop)]
pub enum Asked {
    // The first proof of the goal, or none where the rule asks none.
    Proved(Option<Proof>),
    // Why there is no proof.
    Missed(Cause),
    // The numbers of the goal pass their bound.
    Crowded,
}

// The first proof of a goal, or why there is none.
fn searched(alloc: Global, defs: &Defs, goal: &Goal, limits: &Limits) -> Result<Asked, NoMemory>
    requires sound { IsSound defs.now }
    requires fits { GoalFits defs.now goal.now }
    requires limits { LimitsFit limits.now }
    ensures { IfOk result (IsSearched defs.now limits.now goal.now) }
{
    let one = Limits {
        residues: 1,
        ..*limits
    };
    match prove(alloc, defs, goal, &one)? {
        SleekAnswer::Valid(mut proofs) => Ok(Asked::Proved(Some(proofs.remove(0)))),
        SleekAnswer::Unknown(cause) => Ok(Asked::Missed(cause)),
    }
}

// The first proof of the goal of a rule of the state, or why there is none.
pub fn ask(
    alloc: Global,
    program: &Program,
    defs: &Defs,
    at: &At,
    rule: &PRule,
    limits: &Limits,
) -> Result<Asked, NoMemory>
    requires sound { IsSound defs.now }
    requires program { IsSoundProgram defs.now program.now }
    requires fits { StateFits defs.now program.now at.now }
    requires form { HasForm program.now at.now rule.now }
    requires limits { LimitsFit limits.now }
    ensures { IfOk result (IsAsked defs.now limits.now program.now at.now rule.now) }
{
    asked_goals_fit();
    match obligation(alloc, program, defs, at, rule) {
        Ok(None) => Ok(Asked::Proved(None)),
        Ok(Some(goal)) => searched(alloc, defs, &goal, limits),
        Err(RuleError::NotApplicable) => Ok(Asked::Crowded),
        Err(RuleError::Memory) => Err(NoMemory),
    }
}
