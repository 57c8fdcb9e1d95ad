//! Blocks, and what they set.

ghost use Rattle.std.specs.Prelude.{◌≡◌, true, IfOk, OnOk};
ghost use Rattle.hs_lower_scope.specs.View.{shown};
ghost use Rattle.hs_lower_faults.specs.First as first;
ghost use Rattle.hs_lower_faults.specs.Setting as spec;
ghost use Rattle.hs_lower_faults.specs.View.{set_of, state_of};

use crate::error::LowerError;
use crate::reads::{condition, expression, expressions, optional_expression, value, variable};
use crate::set::SetTable;
use hs_lower_scope::Scope;
use hs_norm::MethodTree;
use hs_pure::NoMemory;
use hs_tree::{
    BlockTree, CallTree, CondTree, ExprTree, Ident, StatementKind, StatementTree, ValueTree,
};
use std::alloc::Global;

/// The first fault so far, what is set, and whether the place can be reached.
#[derive(Drop)]
pub struct Run {
    pub found: Option<LowerError>,
    pub set: SetTable,
    pub ends: bool,
}

// A variable gets a value.
fn gets(
    alloc: Global,
    scope: &Scope,
    run: &mut Run,
    x: &Ident,
    v: &ValueTree,
) -> Result<(), NoMemory>
    ensures { OnOk result (state_of run.new ≡ spec.gets (shown scope.now) x.now v.now (state_of run.old)) }
{
    let found = value(scope, &run.set, run.found, v)?;
    let set = run.set.with(alloc, scope.slot(&x.text)?)?;
    run.found = found;
    run.set = set;
    Ok(())
}

fn may_get(
    alloc: Global,
    scope: &Scope,
    run: &mut Run,
    x: &Ident,
    v: &Option<ValueTree>,
) -> Result<(), NoMemory>
    ensures { OnOk result (state_of run.new ≡ spec.may_get (shown scope.now) x.now v.now (state_of run.old)) }
{
    match v {
        Some(v) => gets(alloc, scope, run, x, v),
        None => Ok(()),
    }
}

fn store(scope: &Scope, run: &mut Run, x: &Ident, e: &ExprTree) -> Result<(), NoMemory>
    ensures { OnOk result (state_of run.new ≡ spec.reads (λ set. first.both (spec.variable (shown scope.now) set x.now) (spec.expression (shown scope.now) set e.now)) (state_of run.old)) }
{
    let found = variable(scope, &run.set, run.found, x)?;
    run.found = expression(scope, &run.set, found, e)?;
    Ok(())
}

fn call(scope: &Scope, run: &mut Run, c: &CallTree) -> Result<(), NoMemory>
    ensures { OnOk result (state_of run.new ≡ spec.reads (λ set. first.all (spec.expression (shown scope.now) set) c.now.args) (state_of run.old)) }
{
    run.found = expressions(scope, &run.set, run.found, c.args.as_slice())?;
    Ok(())
}

fn test(scope: &Scope, run: &mut Run, c: &CondTree) -> Result<(), NoMemory>
    ensures { OnOk result (state_of run.new ≡ spec.reads (λ set. spec.condition (shown scope.now) set c.now) (state_of run.old)) }
{
    run.found = condition(scope, &run.set, run.found, c)?;
    Ok(())
}

// A return sets nothing, and its end cannot be reached.
fn give(scope: &Scope, run: &mut Run, e: &Option<ExprTree>) -> Result<(), NoMemory>
    ensures { OnOk result (state_of run.new ≡ spec.returns (shown scope.now) e.now (state_of run.old)) }
{
    run.found = optional_expression(scope, &run.set, run.found, e)?;
    run.ends = false;
    Ok(())
}

// A branch that begins with what is set before it.
fn begin(alloc: Global, found: Option<LowerError>, set: &SetTable) -> Result<Run, NoMemory>
    ensures { IfOk result (λ r. state_of r ≡ spec.state found (set_of set.now) true) }
{
    Ok(Run {
        found,
        set: set.copy(alloc)?,
        ends: true,
    })
}

// What is set at the end of a part, whether or not that can be reached.
fn at_end(alloc: Global, run: &Run) -> Result<SetTable, NoMemory>
    ensures { IfOk result (λ t. set_of t ≡ spec.at_end (state_of run.now)) }
{
    if run.ends {
        return run.set.copy(alloc);
    }
    Ok(SetTable::all(alloc))
}

// After both branches.
fn join(alloc: Global, run: &mut Run, a: &Run, b: &Run) -> Result<(), NoMemory>
    ensures { OnOk result (state_of run.new ≡ spec.joined run.old.ends (state_of a.now) (state_of b.now)) }
{
    let left = at_end(alloc, a)?;
    let right = at_end(alloc, b)?;
    run.set = left.both(alloc, &right)?;
    run.found = b.found;
    run.ends = run.ends && (a.ends || b.ends);
    Ok(())
}

#[cycle(block)]
fn statement(
    alloc: Global,
    scope: &Scope,
    run: &mut Run,
    tree: &StatementTree,
) -> Result<(), NoMemory>
    ensures { OnOk result (state_of run.new ≡ spec.statement (shown scope.now) tree.now (state_of run.old)) }
{
    match &tree.kind {
        StatementKind::Local(_, x, v) => may_get(alloc, scope, run, x, v),
        StatementKind::Assign(x, v) => gets(alloc, scope, run, x, v),
        StatementKind::Store(x, _, e) => store(scope, run, x, e),
        StatementKind::Call(c) => call(scope, run, c),
        StatementKind::Branch(c, yes, None) => {
            test(scope, run, c)?;
            let mut a = begin(alloc, run.found, &run.set)?;
            block(alloc, scope, &mut a, yes)?;
            let b = begin(alloc, a.found, &run.set)?;
            join(alloc, run, &a, &b)
        }
        StatementKind::Branch(c, yes, Some(no)) => {
            test(scope, run, c)?;
            let mut a = begin(alloc, run.found, &run.set)?;
            block(alloc, scope, &mut a, yes)?;
            let mut b = begin(alloc, a.found, &run.set)?;
            block(alloc, scope, &mut b, no)?;
            join(alloc, run, &a, &b)
        }
        StatementKind::Return(e) => give(scope, run, e),
    }
}

#[cycle(block)]
fn block(alloc: Global, scope: &Scope, run: &mut Run, tree: &BlockTree) -> Result<(), NoMemory>
    ensures { OnOk result (state_of run.new ≡ spec.block (shown scope.now) tree.now (state_of run.old)) }
{
    for one in tree.statements.as_slice() {
        statement(alloc, scope, run, one)?;
    }
    Ok(())
}

/// The first fault so far, or read of what is not set in the block of a method, whose parameters are set.
pub fn method_block(
    alloc: Global,
    scope: &Scope,
    found: Option<LowerError>,
    m: &MethodTree,
) -> Result<Option<LowerError>, NoMemory>
    ensures { IfOk result (λ f. f ≡ spec.method_block (shown scope.now) m.now found) }
{
    let set = SetTable::params(alloc, m.params.len())?;
    let mut run = Run {
        found,
        set,
        ends: true,
    };
    block(alloc, scope, &mut run, &m.block)?;
    Ok(run.found)
}
