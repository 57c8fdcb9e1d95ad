//! Values in slots, and instructions that take them.

ghost use Rattle.std.specs.Prelude.{◌≡◌, ◌+◌, true, false, [], ◌∷◌, Some, None, IfOk, OnOk};
ghost use Rattle.hs_core.specs.declared.instr.Instr.TheVariants as instr;
ghost use Rattle.hs_lower_scope.specs.View.{shown};
ghost use Rattle.hs_lower.specs.Code as spec;

use crate::made::{Made, Placed, PlacedAll};
use hs_core::Instr;
use hs_lower_scope::{Field, Scope, bare, term_of};
use hs_pure::NoMemory;
use hs_tree::{CallTree, ExprTree, Ident, ValueTree};
use sqlite_items::Items;
use std::alloc::Global;

// A sum that 32 bits hold.
pub fn plus(a: u32, b: usize) -> Result<u32, NoMemory>
    ensures { IfOk result (λ n. n ≡ a + b) }
{
    let room = u32::MAX - a;
    if b > room as usize {
        return Err(NoMemory);
    }
    Ok(a + b as u32)
}

// An assignment of a term to a slot.
fn assign(alloc: Global, scope: &Scope, to: u32, e: &ExprTree) -> Result<Items<Instr>, NoMemory>
    ensures { IfOk result (λ code. code ≡ spec.assigned (shown scope.now) to e.now) }
{
    let mut code = Items::new(alloc);
    code.push(Instr::Assign(to, term_of(alloc, scope, e)?))?;
    Ok(code)
}

// A value in a new slot.
fn place_new(alloc: Global, scope: &Scope, e: &ExprTree, n: u32) -> Result<Placed, NoMemory>
    ensures { IfOk result (λ a. a ≡ spec.placed_by (shown scope.now) e.now n None) }
{
    let slot = plus(n, 1)?;
    Ok(Placed {
        code: assign(alloc, scope, slot, e)?,
        slots: slot,
        slot,
    })
}

fn place_variable(
    alloc: Global,
    scope: &Scope,
    e: &ExprTree,
    n: u32,
    x: &Ident,
) -> Result<Placed, NoMemory>
    ensures { IfOk result (λ a. a ≡ spec.placed_by (shown scope.now) e.now n (Some x.now)) }
{
    let slot = scope.slot(&x.text)?;
    Ok(Placed {
        code: Items::new(alloc),
        slots: n,
        slot,
    })
}

/// The slot of a bare variable, or a new slot that is assigned just before.
pub fn place(alloc: Global, scope: &Scope, e: &ExprTree, n: u32) -> Result<Placed, NoMemory>
    ensures { IfOk result (λ a. a ≡ spec.placed (shown scope.now) e.now n) }
{
    match bare(e) {
        Some(x) => place_variable(alloc, scope, e, n, x),
        None => place_new(alloc, scope, e, n),
    }
}

fn place_next(
    alloc: Global,
    scope: &Scope,
    all: &mut PlacedAll,
    e: &ExprTree,
) -> Result<(), NoMemory>
    ensures { OnOk result (all.new ≡ spec.next_placed (shown scope.now) all.old e.now) }
{
    let a = place(alloc, scope, e, all.slots)?;
    all.code.append(a.code)?;
    all.slots = a.slots;
    all.args.push(a.slot)?;
    Ok(())
}

fn place_all(alloc: Global, scope: &Scope, es: &[ExprTree], n: u32) -> Result<PlacedAll, NoMemory>
    ensures { IfOk result (λ a. a ≡ spec.all_placed (shown scope.now) es.now n) }
{
    let mut all = PlacedAll {
        code: Items::new(alloc),
        slots: n,
        args: Items::new(alloc),
    };
    for e in es {
        place_next(alloc, scope, &mut all, e)?;
    }
    Ok(all)
}

/// A call, whose result goes to a slot where there is one.
pub fn call(
    alloc: Global,
    scope: &Scope,
    to: Option<u32>,
    c: &CallTree,
    n: u32,
) -> Result<Made, NoMemory>
    ensures { IfOk result (λ m. m ≡ spec.call (shown scope.now) to c.now n) }
{
    let method = scope.method_number(&c.name.text)?;
    let a = place_all(alloc, scope, c.args.as_slice(), n)?;
    let mut code = a.code;
    code.push(Instr::Call(to, method, a.args))?;
    Ok(Made {
        code,
        slots: a.slots,
        ends: true,
    })
}

fn new_node(
    alloc: Global,
    scope: &Scope,
    to: u32,
    x: &Ident,
    args: &[ExprTree],
    n: u32,
) -> Result<Made, NoMemory>
    ensures { IfOk result (λ m. m ≡ spec.new_node (shown scope.now) to x.now args.now n) }
{
    let node = scope.node_number(&x.text)?;
    let a = place_all(alloc, scope, args, n)?;
    let mut code = a.code;
    code.push(Instr::New(to, node, a.args))?;
    Ok(Made {
        code,
        slots: a.slots,
        ends: true,
    })
}

fn field(scope: &Scope, x: &Ident, f: &Ident) -> Result<Option<Field>, NoMemory>
    ensures { IfOk result (λ found. found ≡ spec.field_found (shown scope.now) x.now f.now) }
{
    scope.field(scope.kind(&x.text), &f.text)
}

fn load_by(alloc: Global, to: u32, at: u32, n: u32, field: Option<Field>) -> Result<Made, NoMemory>
    ensures { IfOk result (λ m. m ≡ spec.load_by to at n field) }
{
    let mut code = Items::new(alloc);
    if let Some(f) = field {
        code.push(Instr::Get(to, at, f.node, f.number))?;
    }
    Ok(Made {
        code,
        slots: n,
        ends: true,
    })
}

fn load(
    alloc: Global,
    scope: &Scope,
    to: u32,
    x: &Ident,
    f: &Ident,
    n: u32,
) -> Result<Made, NoMemory>
    ensures { IfOk result (λ m. m ≡ spec.load (shown scope.now) to x.now f.now n) }
{
    let at = scope.slot(&x.text)?;
    load_by(alloc, to, at, n, field(scope, x, f)?)
}

fn assigned(alloc: Global, scope: &Scope, to: u32, e: &ExprTree, n: u32) -> Result<Made, NoMemory>
    ensures { IfOk result (λ m. m ≡ spec.made (spec.assigned (shown scope.now) to e.now) n true) }
{
    Ok(Made {
        code: assign(alloc, scope, to, e)?,
        slots: n,
        ends: true,
    })
}

/// What puts a value into a slot.
pub fn value(alloc: Global, scope: &Scope, to: u32, v: &ValueTree, n: u32) -> Result<Made, NoMemory>
    ensures { IfOk result (λ m. m ≡ spec.value (shown scope.now) to v.now n) }
{
    match v {
        ValueTree::New(_, x, args) => new_node(alloc, scope, to, x, args.as_slice(), n),
        ValueTree::Call(c) => call(alloc, scope, Some(to), c, n),
        ValueTree::Load(x, f) => load(alloc, scope, to, x, f, n),
        ValueTree::Value(e) => assigned(alloc, scope, to, e, n),
    }
}

pub fn variable_value(
    alloc: Global,
    scope: &Scope,
    x: &Ident,
    v: &ValueTree,
    n: u32,
) -> Result<Made, NoMemory>
    ensures { IfOk result (λ m. m ≡ spec.variable_value (shown scope.now) x.now v.now n) }
{
    value(alloc, scope, scope.slot(&x.text)?, v, n)
}

pub fn optional_value(
    alloc: Global,
    scope: &Scope,
    x: &Ident,
    v: &Option<ValueTree>,
    n: u32,
) -> Result<Made, NoMemory>
    ensures { IfOk result (λ m. m ≡ spec.optional_value (shown scope.now) x.now v.now n) }
{
    match v {
        Some(v) => variable_value(alloc, scope, x, v, n),
        None => Ok(Made {
            code: Items::new(alloc),
            slots: n,
            ends: true,
        }),
    }
}

// The value goes to the field of the node that a slot has.
fn set_field(a: Placed, at: u32, f: Field) -> Result<Made, NoMemory>
    ensures { IfOk result (λ m. m ≡ spec.set_field at a f) }
{
    let mut code = a.code;
    code.push(Instr::Set(at, f.node, f.number, a.slot))?;
    Ok(Made {
        code,
        slots: a.slots,
        ends: true,
    })
}

/// What puts a value into a field.
pub fn store(
    alloc: Global,
    scope: &Scope,
    x: &Ident,
    f: &Ident,
    e: &ExprTree,
    n: u32,
) -> Result<Made, NoMemory>
    ensures { IfOk result (λ m. m ≡ spec.store (shown scope.now) x.now f.now e.now n) }
{
    match field(scope, x, f)? {
        Some(f) => set_field(place(alloc, scope, e, n)?, scope.slot(&x.text)?, f),
        None => Ok(Made {
            code: Items::new(alloc),
            slots: n,
            ends: true,
        }),
    }
}

fn give_none(alloc: Global, n: u32) -> Result<Made, NoMemory>
    ensures { IfOk result (λ m. m ≡ spec.made (instr.Return None ∷ []) n false) }
{
    let mut code = Items::new(alloc);
    code.push(Instr::Return(None))?;
    Ok(Made {
        code,
        slots: n,
        ends: false,
    })
}

fn give_one(a: Placed) -> Result<Made, NoMemory>
    ensures { IfOk result (λ m. m ≡ spec.give_one a) }
{
    let mut code = a.code;
    code.push(Instr::Return(Some(a.slot)))?;
    Ok(Made {
        code,
        slots: a.slots,
        ends: false,
    })
}

/// A return.
pub fn give(alloc: Global, scope: &Scope, e: &Option<ExprTree>, n: u32) -> Result<Made, NoMemory>
    ensures { IfOk result (λ m. m ≡ spec.give (shown scope.now) e.now n) }
{
    match e {
        None => give_none(alloc, n),
        Some(e) => give_one(place(alloc, scope, e, n)?),
    }
}
