//! The further premises of a rule.

ghost use Rattle.std.specs.Prelude.{◌≡◌, ◌<◌, ◌≤◌, ◌^◌, Ok, length, suc, IfOk};
ghost use Rattle.std.specs.List.{All};
ghost use Rattle.std.specs.Option.{option_copied};
ghost use Rattle.hs_pure.specs.Rename.{renamed};
ghost use Rattle.hs_heap.specs.Sound.{IsSound};
ghost use Rattle.hs_core.specs.Sound.{IsSoundProgram, ConditionFits};
ghost use Rattle.hs_goal.specs.Shape.{CaseFits};
ghost use Rattle.hs_program_rules.specs.States.{StateFits, variable_in};
ghost use Rattle.hs_program_rules.specs.Table.{AreLow, GoalIsLow};
ghost use Rattle.hs_sides.specs.Answers.{IsGiven as IsAnswered};
ghost use Rattle.hs_prule.specs.After.{opened_state, all_opened, branches, both_ways};
ghost use Rattle.hs_prule.specs.Judged.{formula_or_none, AreNext, IsGiven};
ghost use Rattle.hs_prule.specs.Steps.{called, goal_for, premises_for, IsApplied, IsAlone};

use crate::access::{instruction, method, pair};
use crate::applying::{called, is_or};
use crate::further::{
    after_assign, after_call, after_false, after_get, after_jump, after_new, after_set, after_true,
};
use crate::goals::obligation;
use crate::nodes::new_fields;
use crate::states::{add, copy_slots, goes, one, two};
use hs_core::{At, Instr, PRule, Program};
use hs_heap::{Defs, Disjunct, Formula};
use hs_program_parts::{opened, over_condition};
use hs_pure::{NoMemory, Pure, Var};
use hs_sides::{RuleError, only, simple_case};
use sqlite_items::{Boxed, Items};
use std::alloc::Global;

/// The further premises of the rule at a well-formed state, in order. A residue is given exactly where the rule asks a
/// goal. `NotApplicable` comes exactly where `obligation` gives it, or where the `next` of a premise would pass 2^30.
/// `Memory` comes too where the next point is no number below 2^32.
pub fn next(
    alloc: Global,
    program: &Program,
    defs: &Defs,
    at: &At,
    rule: &PRule,
    residue: Option<&Formula>,
) -> Result<Items<At>, RuleError>
    requires sound { IsSound defs.now }
    requires program { IsSoundProgram defs.now program.now }
    requires fits { StateFits defs.now program.now at.now }
    requires given { IsGiven defs.now program.now at.now rule.now (option_copied residue) }
    ensures exact { AreNext defs.now program.now at.now rule.now (formula_or_none (option_copied residue.entry)) result }
{
    match residue {
        Some(f) => premises(alloc, program, defs, at, rule, f),
        None => {
            let none = Formula {
                cases: Items::new(alloc),
            };
            premises(alloc, program, defs, at, rule, &none)
        }
    }
}

// The further premises by a residue; where the rule asks no goal, any formula serves.
pub fn premises(
    alloc: Global,
    program: &Program,
    defs: &Defs,
    at: &At,
    rule: &PRule,
    residue: &Formula,
) -> Result<Items<At>, RuleError>
    requires sound { IsSound defs.now }
    requires program { IsSoundProgram defs.now program.now }
    requires fits { StateFits defs.now program.now at.now }
    ensures { AreNext defs.now program.now at.now rule.now residue.now result }
{
    let goal = obligation(alloc, program, defs, at, rule)?;
    drop(goal);
    if is_or(*rule) {
        return opened_states(alloc, defs, at, at.state.formula.cases.as_slice());
    }
    premises_for(
        alloc,
        program,
        defs,
        at,
        *rule,
        instruction(program, at),
        residue,
    )
}

// One state for each disjunct.
fn opened_states(
    alloc: Global,
    defs: &Defs,
    at: &At,
    cases: &[Disjunct],
) -> Result<Items<At>, RuleError>
    requires few { at.now.state.next ≤ 2 ^ 30 }
    requires fits { All (CaseFits defs.now at.now.state.next) cases.now }
    ensures { IsAnswered (AreLow (all_opened at.now cases.now)) (all_opened at.now cases.now) result }
{
    let mut states = Items::new(alloc);
    for d in cases {
        match opened_state(alloc, defs, at, d) {
            Ok(state) => add(&mut states, state)?,
            Err(error) => return Err(error),
        }
    }
    Ok(states)
}

fn opened_state(alloc: Global, defs: &Defs, at: &At, d: &Disjunct) -> Result<At, RuleError>
    requires few { at.now.state.next ≤ 2 ^ 30 }
    requires fits { CaseFits defs.now at.now.state.next d.now }
    ensures { IsAnswered ((opened_state at.now d.now).state.next ≤ 2 ^ 30) (opened_state at.now d.now) result }
{
    let f = only(alloc, opened(alloc, d, at.state.next)?)?;
    let held = copy_slots(alloc, at.state.slots.as_slice())?;
    goes(at, at.point, held, f)
}

// One premise alone.
fn alone(alloc: Global, found: Result<At, RuleError>) -> Result<Items<At>, RuleError>
    ensures { IsAlone found result }
{
    Ok(one(alloc, found?)?)
}

fn jump(alloc: Global, at: &At, target: u32) -> Result<Items<At>, RuleError>
    ensures { IsAlone (Ok (record at.now { point = target })) result }
{
    Ok(one(alloc, after_jump(alloc, at, target)?)?)
}

// The states where the condition is true and where it is false.
fn branch(
    alloc: Global,
    at: &At,
    d: &Disjunct,
    condition: &Pure,
    other: u32,
) -> Result<Items<At>, RuleError>
    requires point { suc at.now.point < 2 ^ 32 }
    requires fits { ConditionFits (length at.now.state.slots) condition.now }
    requires few { length at.now.state.slots < 2 ^ 32 }
    ensures { IsAnswered (AreLow (branches at.now d.now condition.now other)) (branches at.now d.now condition.now other) result }
{
    let over = boxed_condition(alloc, at.state.slots.as_slice(), condition)?;
    both(alloc, at, d, over.get(), other)
}

fn boxed_condition(
    alloc: Global,
    held: &[Option<Var>],
    condition: &Pure,
) -> Result<Boxed<Pure>, NoMemory>
    requires fits { ConditionFits (length held.now) condition.now }
    requires few { length held.now < 2 ^ 32 }
    ensures { IfOk result (λ c. c ≡ renamed (λ v. variable_in held.now v.number) condition.now) }
{
    Ok(Boxed::new(alloc, over_condition(alloc, held, condition)?)?)
}

fn both(
    alloc: Global,
    at: &At,
    d: &Disjunct,
    condition: &Pure,
    other: u32,
) -> Result<Items<At>, RuleError>
    requires { suc at.now.point < 2 ^ 32 }
    ensures { IsAnswered (AreLow (both_ways at.now d.now condition.now other)) (both_ways at.now d.now condition.now other) result }
{
    let first = after_true(alloc, at, d, condition)?;
    let second = after_false(alloc, at, d, condition, other)?;
    Ok(two(alloc, first, second)?)
}

// The further premises of the rule of the instruction.
fn premises_for(
    alloc: Global,
    program: &Program,
    defs: &Defs,
    at: &At,
    rule: PRule,
    instr: &Instr,
    residue: &Formula,
) -> Result<Items<At>, RuleError>
    requires program { IsSoundProgram defs.now program.now }
    requires fits { StateFits defs.now program.now at.now }
    requires applied { IsApplied program.now at.now rule instr.now }
    requires low { GoalIsLow (goal_for defs.now program.now at.now (called rule) instr.now) }
    ensures { IsAnswered (AreLow (premises_for defs.now program.now at.now (called rule) instr.now residue.now)) (premises_for defs.now program.now at.now (called rule) instr.now residue.now) result }
{
    if at.point == u32::MAX || at.state.slots.len() > u32::MAX as usize {
        return Err(RuleError::Memory);
    }
    let Some(d) = simple_case(&at.state.formula) else {
        return Err(RuleError::NotApplicable);
    };
    match instr {
        Instr::Assign(to, term) => alone(alloc, after_assign(alloc, at, d, *to, term)),
        Instr::New(to, kind, args) => {
            alone(alloc, after_new(alloc, at, d, *to, *kind, args.as_slice()))
        }
        Instr::Get(to, slot, kind, field) => {
            let fields = new_fields(alloc, defs, *kind, at.state.next)?;
            let fields = fields.as_slice();
            alone(
                alloc,
                after_get(alloc, at, fields, *to, *slot, *kind, *field, residue),
            )
        }
        Instr::Set(slot, kind, field, from) => {
            let fields = new_fields(alloc, defs, *kind, at.state.next)?;
            let fields = fields.as_slice();
            alone(
                alloc,
                after_set(alloc, at, fields, *slot, *kind, *field, *from, residue),
            )
        }
        Instr::Branch(condition, other) => branch(alloc, at, d, condition, *other),
        Instr::Jump(target) => jump(alloc, at, *target),
        Instr::Call(to, number, args) => {
            let m = method(program, *number);
            let p = pair(m, called(rule));
            alone(
                alloc,
                after_call(alloc, at, m, p, *to, args.as_slice(), residue),
            )
        }
        Instr::Return(_) => Ok(Items::new(alloc)),
    }
}
