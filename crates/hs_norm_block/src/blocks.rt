//! Names, kinds and numbers of arguments in the block of a method.

ghost use Rattle.std.specs.Prelude.{◌≡◌, ◌^◌, nat_le, sum_by, option_map, map};
ghost use Rattle.std.specs.Option.{option_copied};
ghost use Rattle.hs_norm_formula.specs.Table.{entry};
ghost use Rattle.hs_declared.specs.Names.{place, item_at};
ghost use Rattle.hs_declared.specs.Types.{as_node};
ghost use Rattle.hs_numbering.specs.Numbering.{Builds};
ghost use Rattle.hs_norm_block.specs.Program as spec;

use hs_declared::{Declarations, Directory, type_of, undeclared};
use hs_heap::Of;
use hs_norm_formula::Entry;
use hs_numbering::{Numbering, Problem, is_upper};
use hs_pure::NoMemory;
use hs_tree::{
    BlockTree, CallTree, CondTree, ExprKind, ExprTree, Ident, PartTree, StatementKind,
    StatementTree, TestKind, TestTree, ValueTree,
};
use std::alloc::Global;

// A name is known from its declaration on.
fn use_name(
    alloc: Global,
    n: &mut Numbering,
    d: &Declarations,
    names: &Directory,
    x: &Ident,
) -> Result<(), NoMemory>
    ensures { Builds (spec.use_name d.now names.now x.now n.old) result n.new }
{
    if let Some(first) = names.get(&x.text) {
        if first.at < x.at {
            return Ok(());
        }
    }
    undeclared(alloc, n, x)
}

fn use_part(
    alloc: Global,
    n: &mut Numbering,
    d: &Declarations,
    names: &Directory,
    part: &(bool, PartTree),
) -> Result<(), NoMemory>
    ensures { Builds (spec.use_part d.now names.now part.now n.old) result n.new }
{
    match &part.1 {
        PartTree::Number(_) => Ok(()),
        PartTree::Times(_, x) => use_name(alloc, n, d, names, x),
        PartTree::Name(x) => use_name(alloc, n, d, names, x),
        PartTree::Null => Ok(()),
    }
}

fn use_parts(
    alloc: Global,
    n: &mut Numbering,
    d: &Declarations,
    names: &Directory,
    parts: &[(bool, PartTree)],
) -> Result<(), NoMemory>
    ensures { Builds (spec.all (spec.use_part d.now names.now) parts.now n.old) result n.new }
{
    for part in parts {
        use_part(alloc, n, d, names, part)?;
    }
    Ok(())
}

fn part_weight(part: &(bool, PartTree)) -> u128
    ensures { result ≡ spec.part_weight part.now }
{
    match &part.1 {
        PartTree::Number(size) => *size,
        PartTree::Times(size, _) => *size,
        PartTree::Name(_) => 1,
        PartTree::Null => 0,
    }
}

// Whether the numbers of a sum add up to at most 2^126.
fn is_light(parts: &[(bool, PartTree)]) -> bool
    ensures { result ≡ nat_le (sum_by spec.part_weight parts.now) (2 ^ 126) }
{
    let mut room = 1u128 << 126;
    for part in parts {
        let weight = part_weight(part);
        if weight > room {
            return false;
        }
        room -= weight;
    }
    true
}

fn blame_heavy(n: &mut Numbering, at: u32, light: bool) -> Result<(), NoMemory>
    ensures { Builds (spec.blame_heavy at light n.old) result n.new }
{
    if light {
        return Ok(());
    }
    n.blame(at, Problem::Shape)
}

fn sum(
    alloc: Global,
    n: &mut Numbering,
    d: &Declarations,
    names: &Directory,
    at: u32,
    parts: &[(bool, PartTree)],
) -> Result<(), NoMemory>
    ensures { Builds (spec.sum d.now names.now at parts.now n.old) result n.new }
{
    use_parts(alloc, n, d, names, parts)?;
    blame_heavy(n, at, is_light(parts))
}

// An expression of a program is a number.
fn expression(
    alloc: Global,
    n: &mut Numbering,
    d: &Declarations,
    names: &Directory,
    tree: &ExprTree,
) -> Result<(), NoMemory>
    ensures { Builds (spec.expression d.now names.now tree.now n.old) result n.new }
{
    let ExprKind::Sum(parts) = &tree.kind else {
        return n.blame(tree.at, Problem::Kind);
    };
    sum(alloc, n, d, names, tree.at, parts.as_slice())
}

fn expressions(
    alloc: Global,
    n: &mut Numbering,
    d: &Declarations,
    names: &Directory,
    trees: &[ExprTree],
) -> Result<(), NoMemory>
    ensures { Builds (spec.all (spec.expression d.now names.now) trees.now n.old) result n.new }
{
    for tree in trees {
        expression(alloc, n, d, names, tree)?;
    }
    Ok(())
}

// How many parameters a method has.
fn count_of(d: &Declarations, name: &Ident) -> Option<usize>
    ensures { result ≡ item_at d.now.counts (place name.now.text d.now.methods) }
{
    match d.methods.place(&name.text) {
        Some(i) => d.counts.get(i).copied(),
        None => None,
    }
}

fn call_name(
    alloc: Global,
    n: &mut Numbering,
    d: &Declarations,
    call: &CallTree,
) -> Result<(), NoMemory>
    ensures { Builds (spec.call_by call.now (item_at d.now.counts (place call.now.name.text d.now.methods)) n.old) result n.new }
{
    match count_of(d, &call.name) {
        None => undeclared(alloc, n, &call.name),
        Some(count) if count != call.args.len() => n.blame(call.name.at, Problem::Arity),
        Some(_) => Ok(()),
    }
}

fn call(
    alloc: Global,
    n: &mut Numbering,
    d: &Declarations,
    names: &Directory,
    tree: &CallTree,
) -> Result<(), NoMemory>
    ensures { Builds (spec.call d.now names.now tree.now n.old) result n.new }
{
    call_name(alloc, n, d, tree)?;
    expressions(alloc, n, d, names, tree.args.as_slice())
}

// The data type of a name.
fn node_entry<'a>(d: &'a Declarations, x: &Ident) -> Option<&'a Entry>
    ensures { option_copied result ≡ option_map (λ e. e.1) (as_node (entry x.now.text d.now.table)) }
{
    let entry = d.table.get(&x.text)?;
    match entry.of {
        Of::Node(_) => Some(entry),
        Of::Pred(_) => None,
    }
}

fn new_node(
    alloc: Global,
    n: &mut Numbering,
    d: &Declarations,
    at: u32,
    x: &Ident,
    count: usize,
) -> Result<(), NoMemory>
    ensures { Builds (spec.node_by at x.now count (as_node (entry x.now.text d.now.table)) n.old) result n.new }
{
    match node_entry(d, x) {
        None => undeclared(alloc, n, x),
        Some(entry) if entry.kinds.len() != count => n.blame(at, Problem::Arity),
        Some(_) => Ok(()),
    }
}

fn value(
    alloc: Global,
    n: &mut Numbering,
    d: &Declarations,
    names: &Directory,
    tree: &ValueTree,
) -> Result<(), NoMemory>
    ensures { Builds (spec.value d.now names.now tree.now n.old) result n.new }
{
    match tree {
        ValueTree::New(at, x, args) => {
            new_node(alloc, n, d, *at, x, args.len())?;
            expressions(alloc, n, d, names, args.as_slice())
        }
        ValueTree::Call(tree) => call(alloc, n, d, names, tree),
        ValueTree::Load(x, _) => use_name(alloc, n, d, names, x),
        ValueTree::Value(tree) => expression(alloc, n, d, names, tree),
    }
}

#[cycle(condition)]
fn test(
    alloc: Global,
    n: &mut Numbering,
    d: &Declarations,
    names: &Directory,
    tree: &TestTree,
) -> Result<(), NoMemory>
    ensures { Builds (spec.test d.now names.now tree.now n.old) result n.new }
{
    match &tree.kind {
        TestKind::Not(tree) => test(alloc, n, d, names, tree.get()),
        TestKind::Group(tree) => condition(alloc, n, d, names, tree),
        TestKind::Rel(_, left, right) => {
            expression(alloc, n, d, names, left)?;
            expression(alloc, n, d, names, right)
        }
    }
}

#[cycle(condition)]
fn condition(
    alloc: Global,
    n: &mut Numbering,
    d: &Declarations,
    names: &Directory,
    tree: &CondTree,
) -> Result<(), NoMemory>
    ensures { Builds (spec.condition d.now names.now tree.now n.old) result n.new }
{
    for case in tree.cases.as_slice() {
        tests(alloc, n, d, names, case.as_slice())?;
    }
    Ok(())
}

#[cycle(condition)]
fn tests(
    alloc: Global,
    n: &mut Numbering,
    d: &Declarations,
    names: &Directory,
    trees: &[TestTree],
) -> Result<(), NoMemory>
    ensures { Builds (spec.all (λ t. t) (map (spec.test d.now names.now) trees.now) n.old) result n.new }
{
    for tree in trees {
        test(alloc, n, d, names, tree)?;
    }
    Ok(())
}

fn optional_value(
    alloc: Global,
    n: &mut Numbering,
    d: &Declarations,
    names: &Directory,
    tree: &Option<ValueTree>,
) -> Result<(), NoMemory>
    ensures { Builds (spec.optional (spec.value d.now names.now) tree.now n.old) result n.new }
{
    match tree {
        None => Ok(()),
        Some(tree) => value(alloc, n, d, names, tree),
    }
}

fn optional_expression(
    alloc: Global,
    n: &mut Numbering,
    d: &Declarations,
    names: &Directory,
    tree: &Option<ExprTree>,
) -> Result<(), NoMemory>
    ensures { Builds (spec.optional (spec.expression d.now names.now) tree.now n.old) result n.new }
{
    match tree {
        None => Ok(()),
        Some(tree) => expression(alloc, n, d, names, tree),
    }
}

#[cycle(block)]
fn statement(
    alloc: Global,
    n: &mut Numbering,
    d: &Declarations,
    names: &Directory,
    tree: &StatementTree,
) -> Result<(), NoMemory>
    ensures { Builds (spec.statement d.now names.now tree.now n.old) result n.new }
{
    match &tree.kind {
        StatementKind::Local(kind, x, v) => {
            type_of(alloc, n, &d.table, kind)?;
            if is_upper(&x.text) {
                n.blame(x.at, Problem::Kind)?;
            }
            optional_value(alloc, n, d, names, v)
        }
        StatementKind::Assign(x, v) => {
            use_name(alloc, n, d, names, x)?;
            value(alloc, n, d, names, v)
        }
        StatementKind::Store(x, _, e) => {
            use_name(alloc, n, d, names, x)?;
            expression(alloc, n, d, names, e)
        }
        StatementKind::Call(tree) => call(alloc, n, d, names, tree),
        StatementKind::Branch(tree, yes, None) => {
            condition(alloc, n, d, names, tree)?;
            block(alloc, n, d, names, yes)
        }
        StatementKind::Branch(tree, yes, Some(no)) => {
            condition(alloc, n, d, names, tree)?;
            block(alloc, n, d, names, yes)?;
            block(alloc, n, d, names, no)
        }
        StatementKind::Return(e) => optional_expression(alloc, n, d, names, e),
    }
}

/// Collects the faults of a block, in a source with these declarations and a method with these parameters and locals.
#[cycle(block)]
pub fn block(
    alloc: Global,
    n: &mut Numbering,
    d: &Declarations,
    names: &Directory,
    tree: &BlockTree,
) -> Result<(), NoMemory>
    ensures { Builds (spec.block d.now names.now tree.now n.old) result n.new }
{
    for one in tree.statements.as_slice() {
        statement(alloc, n, d, names, one)?;
    }
    Ok(())
}
