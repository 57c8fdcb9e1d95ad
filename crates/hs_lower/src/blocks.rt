//! The instructions of blocks.

ghost use Rattle.std.specs.Prelude.{◌≡◌, ◌+◌, suc, [], ◌∷◌, ◌++◌, ◌||◌, length, IfOk, OnOk};
ghost use Rattle.hs_core.specs.declared.instr.Instr.TheVariants as instr;
ghost use Rattle.hs_lower_scope.specs.View.{shown};
ghost use Rattle.hs_lower.specs.Code as spec;
ghost use Rattle.hs_lower.specs.Conditions as conditions;

use crate::conditions::condition;
use crate::made::Made;
use crate::values::{call, give, optional_value, plus, store, variable_value};
use hs_core::Instr;
use hs_lower_scope::Scope;
use hs_pure::NoMemory;
use hs_tree::{BlockTree, CondTree, StatementKind, StatementTree};
use sqlite_items::Items;
use std::alloc::Global;

// A branch to a target.
fn test(alloc: Global, scope: &Scope, c: &CondTree, target: u32) -> Result<Items<Instr>, NoMemory>
    ensures { IfOk result (λ code. code ≡ instr.Branch (conditions.condition (shown scope.now) c.now) target ∷ []) }
{
    let mut code = Items::new(alloc);
    code.push(Instr::Branch(condition(alloc, scope, c)?, target))?;
    Ok(code)
}

// What comes after the code of a branch that begins after p.
fn after(p: u32, a: &Made) -> Result<u32, NoMemory>
    ensures { IfOk result (λ q. q ≡ suc p + length a.now.code) }
{
    plus(plus(p, 1)?, a.code.len())
}

// Without else.
fn if_then(alloc: Global, scope: &Scope, c: &CondTree, p: u32, a: Made) -> Result<Made, NoMemory>
    ensures { IfOk result (λ m. m ≡ spec.if_then (shown scope.now) c.now p a) }
{
    let mut code = test(alloc, scope, c, after(p, &a)?)?;
    code.append(a.code)?;
    Ok(Made {
        code,
        slots: a.slots,
        ends: true,
    })
}

// Where the else begins.
fn else_at(p: u32, a: &Made) -> Result<u32, NoMemory>
    ensures { IfOk result (λ q. q ≡ spec.else_at p a.now) }
{
    let end = after(p, a)?;
    if a.ends {
        return plus(end, 1);
    }
    Ok(end)
}

fn push_jump(code: &mut Items<Instr>, ends: bool, target: u32) -> Result<(), NoMemory>
    ensures { OnOk result (code.new ≡ code.old ++ spec.jump ends target) }
{
    if ends {
        code.push(Instr::Jump(target))?;
    }
    Ok(())
}

// With an else that begins at q.
fn if_else(
    alloc: Global,
    scope: &Scope,
    c: &CondTree,
    q: u32,
    a: Made,
    b: Made,
) -> Result<Made, NoMemory>
    ensures { IfOk result (λ m. m ≡ spec.if_else (shown scope.now) c.now q a b) }
{
    let target = plus(q, b.code.len())?;
    let mut code = test(alloc, scope, c, q)?;
    code.append(a.code)?;
    push_jump(&mut code, a.ends, target)?;
    code.append(b.code)?;
    let ends = either(a.ends, b.ends);
    Ok(Made {
        code,
        slots: b.slots,
        ends,
    })
}

fn either(a: bool, b: bool) -> bool
    ensures { result ≡ (a || b) }
{
    a || b
}

fn follow(all: &mut Made, next: Made) -> Result<(), NoMemory>
    ensures { OnOk result (all.new ≡ spec.follow all.old next) }
{
    all.code.append(next.code)?;
    all.slots = next.slots;
    all.ends = next.ends;
    Ok(())
}

// One more statement of a block that begins at p. Where the end before it cannot be reached it gives no instruction.
#[cycle(block)]
fn statement(
    alloc: Global,
    scope: &Scope,
    p: u32,
    all: &mut Made,
    tree: &StatementTree,
) -> Result<(), NoMemory>
    ensures { OnOk result (all.new ≡ spec.then_part p all.old (spec.statement (shown scope.now) tree.now)) }
{
    if !all.ends {
        return Ok(());
    }
    let at = plus(p, all.code.len())?;
    let n = all.slots;
    match &tree.kind {
        StatementKind::Local(_, x, v) => follow(all, optional_value(alloc, scope, x, v, n)?),
        StatementKind::Assign(x, v) => follow(all, variable_value(alloc, scope, x, v, n)?),
        StatementKind::Store(x, f, e) => follow(all, store(alloc, scope, x, f, e, n)?),
        StatementKind::Call(c) => follow(all, call(alloc, scope, None, c, n)?),
        StatementKind::Branch(c, yes, None) => {
            let a = block(alloc, scope, plus(at, 1)?, n, yes)?;
            follow(all, if_then(alloc, scope, c, at, a)?)
        }
        StatementKind::Branch(c, yes, Some(no)) => {
            let a = block(alloc, scope, plus(at, 1)?, n, yes)?;
            let q = else_at(at, &a)?;
            let b = block(alloc, scope, q, a.slots, no)?;
            follow(all, if_else(alloc, scope, c, q, a, b)?)
        }
        StatementKind::Return(e) => follow(all, give(alloc, scope, e, n)?),
    }
}

/// The instructions of a block that begins at p, after slots up to n are used.
#[cycle(block)]
pub fn block(
    alloc: Global,
    scope: &Scope,
    p: u32,
    n: u32,
    tree: &BlockTree,
) -> Result<Made, NoMemory>
    ensures { IfOk result (λ m. m ≡ spec.block (shown scope.now) tree.now p n) }
{
    let mut all = Made {
        code: Items::new(alloc),
        slots: n,
        ends: true,
    };
    for one in tree.statements.as_slice() {
        statement(alloc, scope, p, &mut all, one)?;
    }
    Ok(all)
}
