//! Where types do not fit.

ghost use Rattle.std.specs.Prelude.{◌≡◌, map};
ghost use Rattle.std.specs.Option.{option_copied};
ghost use Rattle.hs_lower_scope.specs.View.{shown};
ghost use Rattle.hs_lower_faults.specs.First as first;
ghost use Rattle.hs_lower_faults.specs.Types as spec;

use crate::error::LowerError;
use crate::exprs::{
    alike, expr, goes, is_node, is_number, result_goes, same_type, type_of, wanted,
};
use crate::first::fits;
use hs_declared::VarType;
use hs_heap::NodeDef;
use hs_lower_scope::{Scope, field_type};
use hs_norm::{MethodTree, Param};
use hs_text::Text;
use hs_tree::{
    BlockTree, CallTree, CondTree, ExprTree, Ident, RelTree, StatementKind, StatementTree,
    TestKind, TestTree, ValueTree,
};

// The first fault so far.
type First = Option<LowerError>;

// Fields that get expressions.
fn fields_wanted(
    scope: &Scope,
    found: First,
    fields: &[(Text, Option<u32>)],
    es: &[ExprTree],
) -> First
    ensures { result ≡ spec.fields_wanted (shown scope.now) fields.now es.now found }
{
    let mut found = found;
    let count = fields.len().min(es.len());
    for i in 0..count {
        found = wanted(scope, found, field_type(fields[i].1), &es[i]);
    }
    found
}

// Parameters that get expressions.
fn params_wanted(scope: &Scope, found: First, params: &[Param], es: &[ExprTree]) -> First
    ensures { result ≡ spec.params_wanted (shown scope.now) params.now es.now found }
{
    let mut found = found;
    let count = params.len().min(es.len());
    for i in 0..count {
        found = wanted(scope, found, params[i].kind, &es[i]);
    }
    found
}

fn node_args(scope: &Scope, found: First, node: Option<&NodeDef>, es: &[ExprTree]) -> First
    ensures { result ≡ spec.node_args (shown scope.now) (option_copied node.entry) es.now found }
{
    match node {
        Some(node) => fields_wanted(scope, found, node.fields.as_slice(), es),
        None => found,
    }
}

fn method_args(scope: &Scope, found: First, m: Option<&MethodTree>, es: &[ExprTree]) -> First
    ensures { result ≡ spec.method_args (shown scope.now) (option_copied m.entry) es.now found }
{
    match m {
        Some(m) => params_wanted(scope, found, m.params.as_slice(), es),
        None => found,
    }
}

fn call(scope: &Scope, found: First, c: &CallTree) -> First
    ensures { result ≡ spec.call (shown scope.now) c.now found }
{
    method_args(scope, found, scope.method(&c.name.text), c.args.as_slice())
}

// The type of what a method gives back.
fn result_of(m: Option<&MethodTree>) -> Option<VarType>
    ensures { result ≡ spec.method_result (option_copied m.entry) }
{
    match m {
        Some(m) => m.result,
        None => None,
    }
}

fn call_value(scope: &Scope, found: First, want: VarType, c: &CallTree) -> First
    ensures { result ≡ spec.call_value (shown scope.now) want c.now found }
{
    let found = call(scope, found, c);
    let have = result_of(scope.method(&c.name.text));
    fits(found, result_goes(have, want), c.name.at)
}

// A variable without a data type, or a data type without the field.
fn no_field(scope: &Scope, found: First, x: &Ident, f: &Ident) -> First
    ensures { result ≡ spec.no_field (shown scope.now) x.now f.now found }
{
    let at = if is_node(scope.kind(&x.text)) {
        f.at
    } else {
        x.at
    };
    fits(found, false, at)
}

fn field_kind(scope: &Scope, x: &Ident, f: &Ident) -> Option<VarType>
    ensures { result ≡ spec.field_kind (shown scope.now) x.now f.now }
{
    scope.field_kind(scope.kind(&x.text), &f.text)
}

fn load(scope: &Scope, found: First, want: VarType, x: &Ident, f: &Ident) -> First
    ensures { result ≡ spec.load_by (shown scope.now) want x.now f.now (spec.field_kind (shown scope.now) x.now f.now) found }
{
    match field_kind(scope, x, f) {
        Some(kind) => fits(found, same_type(kind, want), x.at),
        None => no_field(scope, found, x, f),
    }
}

fn store(scope: &Scope, found: First, x: &Ident, f: &Ident, e: &ExprTree) -> First
    ensures { result ≡ spec.store_by (shown scope.now) x.now f.now e.now (spec.field_kind (shown scope.now) x.now f.now) found }
{
    match field_kind(scope, x, f) {
        Some(kind) => fits(found, goes(type_of(scope, e), kind), e.at),
        None => no_field(scope, found, x, f),
    }
}

// A new node where a type is wanted.
fn new_node(
    scope: &Scope,
    found: First,
    want: VarType,
    at: u32,
    x: &Ident,
    args: &[ExprTree],
) -> First
    ensures { result ≡ spec.new_node (shown scope.now) want at x.now args.now found }
{
    let found = fits(found, scope.is_of(want, &x.text), at);
    node_args(scope, found, scope.node(&x.text), args)
}

// A value where a type is wanted.
fn value(scope: &Scope, found: First, want: VarType, v: &ValueTree) -> First
    ensures { result ≡ spec.value (shown scope.now) want v.now found }
{
    match v {
        ValueTree::New(at, x, args) => new_node(scope, found, want, *at, x, args.as_slice()),
        ValueTree::Call(c) => call_value(scope, found, want, c),
        ValueTree::Load(x, f) => load(scope, found, want, x, f),
        ValueTree::Value(e) => wanted(scope, found, want, e),
    }
}

// The sides of an equation have one type, those of any other test are int.
fn equal_sides(scope: &Scope, found: First, a: &ExprTree, b: &ExprTree) -> First
    ensures { result ≡ spec.equal_sides (shown scope.now) a.now b.now found }
{
    fits(found, alike(type_of(scope, a), type_of(scope, b)), b.at)
}

fn int_sides(scope: &Scope, found: First, a: &ExprTree, b: &ExprTree) -> First
    ensures { result ≡ spec.int_sides (shown scope.now) a.now b.now found }
{
    let found = fits(found, is_number(type_of(scope, a)), a.at);
    fits(found, is_number(type_of(scope, b)), b.at)
}

fn sides(scope: &Scope, found: First, r: RelTree, a: &ExprTree, b: &ExprTree) -> First
    ensures { result ≡ spec.sides (shown scope.now) r a.now b.now found }
{
    match r {
        RelTree::Eq => equal_sides(scope, found, a, b),
        RelTree::Ne => equal_sides(scope, found, a, b),
        RelTree::Lt => int_sides(scope, found, a, b),
        RelTree::Le => int_sides(scope, found, a, b),
        RelTree::Gt => int_sides(scope, found, a, b),
        RelTree::Ge => int_sides(scope, found, a, b),
        RelTree::Subset => int_sides(scope, found, a, b),
        RelTree::Within => int_sides(scope, found, a, b),
    }
}

fn relation(scope: &Scope, found: First, r: RelTree, a: &ExprTree, b: &ExprTree) -> First
    ensures { result ≡ spec.relation (shown scope.now) r a.now b.now found }
{
    let found = expr(scope, found, a);
    let found = expr(scope, found, b);
    sides(scope, found, r, a, b)
}

#[cycle(condition)]
fn test(scope: &Scope, found: First, tree: &TestTree) -> First
    ensures { result ≡ spec.test (shown scope.now) tree.now found }
{
    match &tree.kind {
        TestKind::Not(tree) => test(scope, found, tree.get()),
        TestKind::Group(tree) => condition(scope, found, tree),
        TestKind::Rel(r, a, b) => relation(scope, found, *r, a, b),
    }
}

#[cycle(condition)]
fn tests(scope: &Scope, found: First, trees: &[TestTree]) -> First
    ensures { result ≡ first.all (λ t. t) (map (spec.test (shown scope.now)) trees.now) found }
{
    let mut found = found;
    for tree in trees {
        found = test(scope, found, tree);
    }
    found
}

#[cycle(condition)]
fn condition(scope: &Scope, found: First, tree: &CondTree) -> First
    ensures { result ≡ spec.condition (shown scope.now) tree.now found }
{
    let mut found = found;
    for case in tree.cases.as_slice() {
        found = tests(scope, found, case.as_slice());
    }
    found
}

fn optional_value(scope: &Scope, found: First, want: VarType, v: &Option<ValueTree>) -> First
    ensures { result ≡ first.optional (spec.value (shown scope.now) want) v.now found }
{
    match v {
        Some(v) => value(scope, found, want, v),
        None => found,
    }
}

// A return at a place has an expression exactly where a result is wanted.
fn give(scope: &Scope, found: First, at: u32, e: &Option<ExprTree>) -> First
    ensures { result ≡ spec.give (shown scope.now) at (shown scope.now).result e.now found }
{
    match e {
        None => fits(found, scope.result.is_none(), at),
        Some(e) => match scope.result {
            Some(want) => wanted(scope, found, want, e),
            None => {
                let found = expr(scope, found, e);
                fits(found, false, e.at)
            }
        },
    }
}

#[cycle(block)]
fn statement(scope: &Scope, found: First, tree: &StatementTree) -> First
    ensures { result ≡ spec.statement (shown scope.now) tree.now found }
{
    match &tree.kind {
        StatementKind::Local(_, x, v) => optional_value(scope, found, scope.kind(&x.text), v),
        StatementKind::Assign(x, v) => value(scope, found, scope.kind(&x.text), v),
        StatementKind::Store(x, f, e) => {
            let found = expr(scope, found, e);
            store(scope, found, x, f, e)
        }
        StatementKind::Call(c) => call(scope, found, c),
        StatementKind::Branch(c, yes, None) => {
            let found = condition(scope, found, c);
            block(scope, found, yes)
        }
        StatementKind::Branch(c, yes, Some(no)) => {
            let found = condition(scope, found, c);
            let found = block(scope, found, yes);
            block(scope, found, no)
        }
        StatementKind::Return(e) => give(scope, found, tree.at, e),
    }
}

/// The first fault so far, or of the types of a block.
#[cycle(block)]
pub fn block(scope: &Scope, found: First, tree: &BlockTree) -> First
    ensures { result ≡ spec.block (shown scope.now) tree.now found }
{
    let mut found = found;
    for one in tree.statements.as_slice() {
        found = statement(scope, found, one);
    }
    found
}
