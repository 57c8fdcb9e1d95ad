//! The rule that is taken at a state.

ghost use Rattle.std.specs.Prelude.{◌≡◌, [], ◌∷◌, IfOk};
ghost use Rattle.hs_heap.specs.Sound.{IsSound};
ghost use Rattle.hs_core.specs.Set.{IsSet};
ghost use Rattle.hs_core.specs.Sound.{IsSoundProgram};
ghost use Rattle.hs_program_rules.specs.States.{StateFits};
ghost use Rattle.hs_program_rules.specs.Table.{HasForm};
ghost use Rattle.hs_search.specs.Answer.{LimitsFit};
ghost use Rattle.hs_verify.specs.Asked.{Calls, IsFound};
ghost use Rattle.hs_verify.specs.Tree.{IsNoCall};
ghost use Rattle.hs_verify.specs.Visited.{IsFit};

use crate::asking::{Asked, ask};
use crate::choosing::{Choice, choose};
use hs_core::{At, PRule, Program};
use hs_erule::Proof;
use hs_goal::{Cause, Limits};
use hs_heap::Defs;
use hs_pure::NoMemory;
use sqlite_items::Items;
use std::alloc::Global;

// What is done at a state.
#[derive(Drop)]
pub enum Found {
    // The rule, with the proof of its goal if it asks one.
    Taken(PRule, Option<Proof>),
    // Why no goal that can be asked has a proof.
    Stuck(Items<Cause>),
    // New numbers pass their bound.
    Crowded,
}

// The first of the pairs whose precondition is proved, or why none is.
fn first_pair(
    alloc: Global,
    program: &Program,
    defs: &Defs,
    at: &At,
    limits: &Limits,
    pairs: u32,
) -> Result<Found, NoMemory>
    requires sound { IsSound defs.now }
    requires program { IsSoundProgram defs.now program.now }
    requires fits { StateFits defs.now program.now at.now }
    requires limits { LimitsFit limits.now }
    requires calls { Calls program.now at.now pairs }
    ensures { IfOk result (IsFound defs.now limits.now program.now at.now) }
{
    let mut causes = Items::new(alloc);
    for i in 0..pairs {
        let rule = PRule::Call(i + 1);
        match ask(alloc, program, defs, at, &rule, limits)? {
            Asked::Proved(proof) => return Ok(Found::Taken(rule, proof)),
            Asked::Missed(cause) => causes.push(cause)?,
            Asked::Crowded => return Ok(Found::Crowded),
        }
    }
    Ok(Found::Stuck(causes))
}

// What is done at a state by its one rule.
fn one_rule(
    alloc: Global,
    program: &Program,
    defs: &Defs,
    at: &At,
    limits: &Limits,
    rule: PRule,
) -> Result<Found, NoMemory>
    requires sound { IsSound defs.now }
    requires program { IsSoundProgram defs.now program.now }
    requires fits { StateFits defs.now program.now at.now }
    requires limits { LimitsFit limits.now }
    requires form { HasForm program.now at.now rule }
    requires alone { IsNoCall rule }
    ensures { IfOk result (IsFound defs.now limits.now program.now at.now) }
{
    let asked = ask(alloc, program, defs, at, &rule, limits)?;
    match asked {
        Asked::Proved(proof) => Ok(Found::Taken(rule, proof)),
        Asked::Missed(cause) => Ok(Found::Stuck(one_cause(alloc, cause)?)),
        Asked::Crowded => Ok(Found::Crowded),
    }
}

// The one cause.
fn one_cause(alloc: Global, cause: Cause) -> Result<Items<Cause>, NoMemory>
    ensures { IfOk result (λ all. all ≡ cause ∷ []) }
{
    let mut all = Items::new(alloc);
    all.push(cause)?;
    Ok(all)
}

// The rule that is taken at a well-formed state of a set program, or why none is.
pub fn find(
    alloc: Global,
    program: &Program,
    defs: &Defs,
    at: &At,
    limits: &Limits,
) -> Result<Found, NoMemory>
    requires sound { IsSound defs.now }
    requires program { IsSoundProgram defs.now program.now }
    requires set { IsSet program.now }
    requires fit { IsFit defs.now program.now at.now }
    requires limits { LimitsFit limits.now }
    ensures { IfOk result (IsFound defs.now limits.now program.now at.now) }
{
    match choose(program, at)? {
        Choice::By(rule) => one_rule(alloc, program, defs, at, limits, rule),
        Choice::Pairs(pairs) => first_pair(alloc, program, defs, at, limits, pairs),
    }
}
