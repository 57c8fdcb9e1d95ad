//! The state after each instruction.

ghost use Rattle.std.specs.Prelude.{◌≡◌, ◌<◌, ◌≤◌, ◌^◌, suc, length, IfOk};
ghost use Rattle.hs_core.specs.Sound.{TermFits};
ghost use Rattle.hs_program_rules.specs.States.{number_var};
ghost use Rattle.hs_program_rules.specs.Parts.{result_held};
ghost use Rattle.hs_program_parts.specs.Pairs.{CanBeCalled};
ghost use Rattle.hs_sides.specs.Answers.{IsGiven};
ghost use Rattle.hs_prule.specs.After as state;

use crate::conjoining::{assigned_alone, negated_alone, with_atom, with_conjuncts};
use crate::nodes::{field_var, picked, with_field};
use crate::states::{copy_slots, goes};
use hs_core::{At, Method, Pair};
use hs_heap::{Disjunct, Formula};
use hs_program_parts::{
    all_held, all_joined, beside, call_gives, conjuncts, node_atom, variable, variables, with_held,
};
use hs_pure::{Lin, NoMemory, Pure, Var};
use hs_sides::RuleError;
use sqlite_items::Items;
use std::alloc::Global;

// The next new variable.
fn new_var(at: &At) -> Var
    ensures { result ≡ number_var at.now.state.next }
{
    Var {
        number: at.state.next,
        bag: false,
    }
}

pub fn after_assign(
    alloc: Global,
    at: &At,
    d: &Disjunct,
    to: u32,
    term: &Lin,
) -> Result<At, RuleError>
    requires point { suc at.now.point < 2 ^ 32 }
    requires fits { TermFits (length at.now.state.slots) term.now }
    requires few { length at.now.state.slots < 2 ^ 32 }
    ensures { IsGiven ((state.after_assign at.now d.now to term.now).state.next ≤ 2 ^ 30) (state.after_assign at.now d.now to term.now) result }
{
    let slots = at.state.slots.as_slice();
    let more = assigned_alone(alloc, slots, at.state.next, term)?;
    let f = with_conjuncts(alloc, d, more)?;
    let held = with_held(alloc, slots, to, new_var(at))?;
    goes(at, at.point + 1, held, f)
}

pub fn after_new(
    alloc: Global,
    at: &At,
    d: &Disjunct,
    to: u32,
    kind: u32,
    args: &[u32],
) -> Result<At, RuleError>
    requires { suc at.now.point < 2 ^ 32 }
    ensures { IsGiven ((state.after_new at.now d.now to kind args.now).state.next ≤ 2 ^ 30) (state.after_new at.now d.now to kind args.now) result }
{
    let slots = at.state.slots.as_slice();
    let values = variables(alloc, slots, args)?;
    let atom = node_atom(alloc, new_var(at), kind, values.as_slice())?;
    let f = with_atom(alloc, d, atom)?;
    let held = with_held(alloc, slots, to, new_var(at))?;
    goes(at, at.point + 1, held, f)
}

// The fields are so many, and the node with new variables for them is put first.
pub fn after_get(
    alloc: Global,
    at: &At,
    fields: &[Var],
    to: u32,
    slot: u32,
    kind: u32,
    field: u32,
    residue: &Formula,
) -> Result<At, RuleError>
    requires { suc at.now.point < 2 ^ 32 }
    ensures { IsGiven ((state.after_get at.now fields.now to slot kind field residue.now).state.next ≤ 2 ^ 30) (state.after_get at.now fields.now to slot kind field residue.now) result }
{
    let slots = at.state.slots.as_slice();
    let atom = node_atom(alloc, variable(slots, slot), kind, fields)?;
    let f = beside(alloc, &atom, residue)?;
    let held = with_held(alloc, slots, to, field_var(fields, field))?;
    goes(at, at.point + 1, held, f)
}

pub fn after_set(
    alloc: Global,
    at: &At,
    fields: &[Var],
    slot: u32,
    kind: u32,
    field: u32,
    from: u32,
    residue: &Formula,
) -> Result<At, RuleError>
    requires { suc at.now.point < 2 ^ 32 }
    ensures { IsGiven ((state.after_set at.now fields.now slot kind field from residue.now).state.next ≤ 2 ^ 30) (state.after_set at.now fields.now slot kind field from residue.now) result }
{
    let slots = at.state.slots.as_slice();
    let args = with_field(alloc, fields, field, variable(slots, from))?;
    let atom = node_atom(alloc, variable(slots, slot), kind, args.as_slice())?;
    let f = beside(alloc, &atom, residue)?;
    let held = copy_slots(alloc, slots)?;
    goes(at, at.point + 1, held, f)
}

// Where the condition, over variables, is true.
pub fn after_true(alloc: Global, at: &At, d: &Disjunct, condition: &Pure) -> Result<At, RuleError>
    requires { suc at.now.point < 2 ^ 32 }
    ensures { IsGiven ((state.after_true at.now d.now condition.now).state.next ≤ 2 ^ 30) (state.after_true at.now d.now condition.now) result }
{
    let more = conjuncts(alloc, condition)?;
    let f = with_conjuncts(alloc, d, more)?;
    let held = copy_slots(alloc, at.state.slots.as_slice())?;
    goes(at, at.point + 1, held, f)
}

// Where it is false.
pub fn after_false(
    alloc: Global,
    at: &At,
    d: &Disjunct,
    condition: &Pure,
    other: u32,
) -> Result<At, RuleError>
    ensures { IsGiven ((state.after_false at.now d.now condition.now other).state.next ≤ 2 ^ 30) (state.after_false at.now d.now condition.now other) result }
{
    let more = negated_alone(alloc, condition)?;
    let f = with_conjuncts(alloc, d, more)?;
    let held = copy_slots(alloc, at.state.slots.as_slice())?;
    goes(at, other, held, f)
}

pub fn after_jump(alloc: Global, at: &At, target: u32) -> Result<At, NoMemory>
    ensures { IfOk result (λ a. a ≡ record at.now { point = target }) }
{
    Ok(At {
        method: at.method,
        pair: at.pair,
        point: target,
        state: at.state.copy(alloc)?,
    })
}

// Puts the result into the slot, where there is one.
fn result_held(
    alloc: Global,
    to: Option<u32>,
    v: Var,
    held: Items<Option<Var>>,
) -> Result<Items<Option<Var>>, NoMemory>
    ensures { IfOk result (λ all. all ≡ result_held to v held) }
{
    match to {
        None => Ok(held),
        Some(k) => with_held(alloc, held.as_slice(), k, v),
    }
}

pub fn after_call(
    alloc: Global,
    at: &At,
    m: &Method,
    p: &Pair,
    to: Option<u32>,
    args: &[u32],
    residue: &Formula,
) -> Result<At, RuleError>
    requires point { suc at.now.point < 2 ^ 32 }
    requires few { at.now.state.next ≤ 2 ^ 30 }
    requires able { CanBeCalled m.now p.now }
    requires arity { length args.now ≡ m.now.params }
    ensures { IsGiven ((state.after_call at.now m.now p.now to args.now residue.now).state.next ≤ 2 ^ 30) (state.after_call at.now m.now p.now to args.now residue.now) result }
{
    let slots = at.state.slots.as_slice();
    let values = variables(alloc, slots, args)?;
    let gives = call_gives(alloc, m, p, values.as_slice(), at.state.next)?;
    let changed = picked(alloc, args, m.refs.as_slice())?;
    let filled = all_held(alloc, slots, changed.as_slice(), gives.lasts.as_slice())?;
    let held = result_held(alloc, to, gives.result, filled)?;
    let f = all_joined(alloc, residue, &gives.post)?;
    goes(at, at.point + 1, held, f)
}
