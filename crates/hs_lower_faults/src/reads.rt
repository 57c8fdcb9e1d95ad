//! What is read and not set.

ghost use Rattle.std.specs.Prelude.{◌≡◌, map, IfOk};
ghost use Rattle.hs_lower_scope.specs.View.{shown};
ghost use Rattle.hs_lower_faults.specs.First as first;
ghost use Rattle.hs_lower_faults.specs.Setting as spec;
ghost use Rattle.hs_lower_faults.specs.View.{set_of};

use crate::error::LowerError;
use crate::first::is_set;
use crate::set::SetTable;
use hs_lower_scope::{Scope, part_variable, parts};
use hs_pure::NoMemory;
use hs_tree::{CondTree, ExprTree, Ident, PartTree, TestKind, TestTree, ValueTree};

// The first fault so far.
type First = Option<LowerError>;

pub fn variable(scope: &Scope, set: &SetTable, found: First, x: &Ident) -> Result<First, NoMemory>
    ensures { IfOk result (λ f. f ≡ spec.variable (shown scope.now) (set_of set.now) x.now found) }
{
    let slot = scope.slot(&x.text)?;
    Ok(is_set(found, set.has(slot as usize), x.at))
}

fn part(
    scope: &Scope,
    set: &SetTable,
    found: First,
    part: &(bool, PartTree),
) -> Result<First, NoMemory>
    ensures { IfOk result (λ f. f ≡ spec.part (shown scope.now) (set_of set.now) part.now found) }
{
    match part_variable(part) {
        Some(x) => variable(scope, set, found, x),
        None => Ok(found),
    }
}

fn each_part(
    scope: &Scope,
    set: &SetTable,
    found: First,
    parts: &[(bool, PartTree)],
) -> Result<First, NoMemory>
    ensures { IfOk result (λ f. f ≡ first.all (spec.part (shown scope.now) (set_of set.now)) parts.now found) }
{
    let mut found = found;
    for one in parts {
        found = part(scope, set, found, one)?;
    }
    Ok(found)
}

pub fn expression(
    scope: &Scope,
    set: &SetTable,
    found: First,
    e: &ExprTree,
) -> Result<First, NoMemory>
    ensures { IfOk result (λ f. f ≡ spec.expression (shown scope.now) (set_of set.now) e.now found) }
{
    each_part(scope, set, found, parts(e))
}

pub fn expressions(
    scope: &Scope,
    set: &SetTable,
    found: First,
    es: &[ExprTree],
) -> Result<First, NoMemory>
    ensures { IfOk result (λ f. f ≡ first.all (spec.expression (shown scope.now) (set_of set.now)) es.now found) }
{
    let mut found = found;
    for e in es {
        found = expression(scope, set, found, e)?;
    }
    Ok(found)
}

pub fn optional_expression(
    scope: &Scope,
    set: &SetTable,
    found: First,
    e: &Option<ExprTree>,
) -> Result<First, NoMemory>
    ensures { IfOk result (λ f. f ≡ first.optional (spec.expression (shown scope.now) (set_of set.now)) e.now found) }
{
    match e {
        Some(e) => expression(scope, set, found, e),
        None => Ok(found),
    }
}

pub fn value(scope: &Scope, set: &SetTable, found: First, v: &ValueTree) -> Result<First, NoMemory>
    ensures { IfOk result (λ f. f ≡ spec.value (shown scope.now) (set_of set.now) v.now found) }
{
    match v {
        ValueTree::New(_, _, args) => expressions(scope, set, found, args.as_slice()),
        ValueTree::Call(c) => expressions(scope, set, found, c.args.as_slice()),
        ValueTree::Load(x, _) => variable(scope, set, found, x),
        ValueTree::Value(e) => expression(scope, set, found, e),
    }
}

// Both sides of a test.
fn sides(
    scope: &Scope,
    set: &SetTable,
    found: First,
    a: &ExprTree,
    b: &ExprTree,
) -> Result<First, NoMemory>
    ensures { IfOk result (λ f. f ≡ first.both (spec.expression (shown scope.now) (set_of set.now) a.now) (spec.expression (shown scope.now) (set_of set.now) b.now) found) }
{
    let found = expression(scope, set, found, a)?;
    expression(scope, set, found, b)
}

#[cycle(condition)]
fn test(scope: &Scope, set: &SetTable, found: First, tree: &TestTree) -> Result<First, NoMemory>
    ensures { IfOk result (λ f. f ≡ spec.test (shown scope.now) (set_of set.now) tree.now found) }
{
    match &tree.kind {
        TestKind::Not(tree) => test(scope, set, found, tree.get()),
        TestKind::Group(tree) => condition(scope, set, found, tree),
        TestKind::Rel(_, a, b) => sides(scope, set, found, a, b),
    }
}

#[cycle(condition)]
fn tests(scope: &Scope, set: &SetTable, found: First, trees: &[TestTree]) -> Result<First, NoMemory>
    ensures { IfOk result (λ f. f ≡ first.all (λ t. t) (map (spec.test (shown scope.now) (set_of set.now)) trees.now) found) }
{
    let mut found = found;
    for tree in trees {
        found = test(scope, set, found, tree)?;
    }
    Ok(found)
}

#[cycle(condition)]
pub fn condition(
    scope: &Scope,
    set: &SetTable,
    found: First,
    tree: &CondTree,
) -> Result<First, NoMemory>
    ensures { IfOk result (λ f. f ≡ spec.condition (shown scope.now) (set_of set.now) tree.now found) }
{
    let mut found = found;
    for case in tree.cases.as_slice() {
        found = tests(scope, set, found, case.as_slice())?;
    }
    Ok(found)
}
