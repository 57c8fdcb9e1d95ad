//! The goal that a rule asks.

ghost use Rattle.std.specs.Prelude.{◌≡◌, ◌≤◌, ◌^◌, None, length};
ghost use Rattle.hs_heap.specs.Sound.{IsSound};
ghost use Rattle.hs_goal.specs.Classes.{IsSimple};
ghost use Rattle.hs_core.specs.Sound.{IsSoundProgram};
ghost use Rattle.hs_program_rules.specs.States.{StateFits};
ghost use Rattle.hs_program_rules.specs.Table.{GoalIsLow, node_goal, call_goal};
ghost use Rattle.hs_sides.specs.Answers.{IsGiven};
ghost use Rattle.hs_program_parts.specs.Pairs.{CanBeCalled};
ghost use Rattle.hs_prule.specs.Judged.{IsObligation};
ghost use Rattle.hs_prule.specs.Steps.{called, goal_for, own_goal, some_goal, IsApplied};

use crate::access::{method, pair};
use crate::applying::{applied, called, is_or};
use crate::nodes::{new_fields, node_alone};
use crate::states::asked;
use hs_core::{At, Instr, Method, PRule, Pair, Program};
use hs_goal::Goal;
use hs_heap::Defs;
use hs_program_parts::{call_asks, return_formula, variable, variables};
use hs_sides::{RuleError, simple_case};
use sqlite_items::Items;
use std::alloc::Global;

/// The goal that the rule asks of a well-formed state, if any. `NotApplicable` comes exactly where the rule is not that
/// of the next instruction, or the state is not as the rule needs, or the `next` of the goal would pass 2^30.
pub fn obligation(
    alloc: Global,
    program: &Program,
    defs: &Defs,
    at: &At,
    rule: &PRule,
) -> Result<Option<Goal>, RuleError>
    requires sound { IsSound defs.now }
    requires program { IsSoundProgram defs.now program.now }
    requires fits { StateFits defs.now program.now at.now }
    ensures exact { IsObligation defs.now program.now at.now rule.now result }
{
    if is_or(*rule) {
        return or_obligation(at);
    }
    match applied(program, defs, at, *rule) {
        None => Err(RuleError::NotApplicable),
        Some(instr) => goal_for(alloc, program, defs, at, *rule, instr),
    }
}

fn or_obligation(at: &At) -> Result<Option<Goal>, RuleError>
    ensures { IsGiven (¬ (IsSimple at.now.state.formula)) None result }
{
    match simple_case(&at.state.formula) {
        Some(_) => Err(RuleError::NotApplicable),
        None => Ok(None),
    }
}

// The goal that the rule of the instruction asks.
fn goal_for(
    alloc: Global,
    program: &Program,
    defs: &Defs,
    at: &At,
    rule: PRule,
    instr: &Instr,
) -> Result<Option<Goal>, RuleError>
    requires program { IsSoundProgram defs.now program.now }
    requires fits { StateFits defs.now program.now at.now }
    requires applied { IsApplied program.now at.now rule instr.now }
    ensures { IsGiven (GoalIsLow (goal_for defs.now program.now at.now (called rule) instr.now)) (goal_for defs.now program.now at.now (called rule) instr.now) result }
{
    match instr {
        Instr::Get(_, slot, kind, _) => some(node_goal(alloc, defs, at, *slot, *kind)),
        Instr::Set(slot, kind, _, _) => some(node_goal(alloc, defs, at, *slot, *kind)),
        Instr::Call(_, number, args) => {
            let m = method(program, *number);
            some(call_goal(alloc, at, m, pair(m, called(rule)), args.as_slice()))
        }
        Instr::Return(from) => {
            let m = method(program, at.method);
            some(return_goal(alloc, at, m, pair(m, at.pair), *from))
        }
        Instr::Assign(_, _) => Ok(None),
        Instr::New(_, _, _) => Ok(None),
        Instr::Branch(_, _) => Ok(None),
        Instr::Jump(_) => Ok(None),
    }
}

fn some(found: Result<Goal, RuleError>) -> Result<Option<Goal>, RuleError>
    ensures { result ≡ some_goal found }
{
    match found {
        Ok(goal) => Ok(Some(goal)),
        Err(error) => Err(error),
    }
}

// The state implies a node of the data type at the slot's variable.
fn node_goal(alloc: Global, defs: &Defs, at: &At, slot: u32, kind: u32) -> Result<Goal, RuleError>
    requires { at.now.state.next ≤ 2 ^ 30 }
    ensures { IsGiven ((node_goal defs.now at.now slot kind).next ≤ 2 ^ 30) (node_goal defs.now at.now slot kind) result }
{
    let opens = new_fields(alloc, defs, kind, at.state.next)?;
    let root = variable(at.state.slots.as_slice(), slot);
    let right = node_alone(alloc, root, kind, opens.as_slice())?;
    let low = at.state.next + opens.len() as u32;
    asked(alloc, at, low, opens, right)
}

// The state implies the precondition of the pair.
fn call_goal(alloc: Global, at: &At, m: &Method, p: &Pair, args: &[u32]) -> Result<Goal, RuleError>
    requires few { at.now.state.next ≤ 2 ^ 30 }
    requires able { CanBeCalled m.now p.now }
    requires arity { length args.now ≡ m.now.params }
    ensures { IsGiven ((call_goal at.now m.now p.now args.now).next ≤ 2 ^ 30) (call_goal at.now m.now p.now args.now) result }
{
    let values = variables(alloc, at.state.slots.as_slice(), args)?;
    let asks = call_asks(alloc, m, p, values.as_slice(), at.state.next)?;
    asked(alloc, at, asks.next, asks.opens, asks.pre)
}

// The state implies the postcondition of its pair.
fn return_goal(
    alloc: Global,
    at: &At,
    m: &Method,
    p: &Pair,
    from: Option<u32>,
) -> Result<Goal, RuleError>
    requires able { CanBeCalled m.now p.now }
    ensures { IsGiven ((own_goal at.now m.now p.now from).next ≤ 2 ^ 30) (own_goal at.now m.now p.now from) result }
{
    let right = return_formula(alloc, m, p, from, at.state.slots.as_slice())?;
    asked(alloc, at, at.state.next, Items::new(alloc), right)
}
