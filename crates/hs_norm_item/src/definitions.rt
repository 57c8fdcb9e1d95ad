//! Data types, predicates and lemmas.

ghost use Rattle.std.specs.Prelude.{◌≡◌, IfOk, OnOk, map};
ghost use Rattle.std.specs.List.{zip};
ghost use Rattle.hs_numbering.specs.Numbering.{Builds, each, each_counted};
ghost use Rattle.hs_norm_item.specs.Definitions as spec;

use crate::claim::{begin, fix_self, limit, take_names};
use hs_declared::{Directory, Table, VarType, blame_repeated, type_of, undeclared};
use hs_heap::{Lemma, NodeDef, Of, PredDef};
use hs_norm_formula::conjunction;
use hs_numbering::{Limit, Names, Numbering, Problem, Reading, is_upper};
use hs_pure::{NoMemory, Pure, Var};
use hs_text::Text;
use hs_tree::{DataTree, Ident, ItemTree, LemmaTree, ParamTree, PredTree};
use sqlite_items::Items;
use std::alloc::Global;

// The data type that a field points to.
fn pointed(kind: VarType) -> Option<u32>
    ensures { result ≡ spec.pointed kind }
{
    match kind {
        VarType::Int => None,
        VarType::Node(k) => Some(k),
    }
}

fn field(
    alloc: Global,
    n: &mut Numbering,
    table: &Table,
    count: usize,
    tree: &ParamTree,
) -> Result<(Text, Option<u32>), NoMemory>
    ensures { Builds (spec.field table.now count tree.now n.old) result n.new }
{
    limit(n, 16, Limit::Fields, tree.at, count)?;
    let kind = type_of(alloc, n, table, &tree.kind)?;
    Ok((tree.name.text.copy(alloc)?, pointed(kind)))
}

fn fields(
    alloc: Global,
    n: &mut Numbering,
    table: &Table,
    trees: &[ParamTree],
) -> Result<Items<(Text, Option<u32>)>, NoMemory>
    ensures { Builds (each_counted (spec.field table.now) trees.now n.old) result n.new }
{
    let mut found = Items::new(alloc);
    for tree in trees {
        found.push(field(alloc, n, table, found.len(), tree)?)?;
    }
    Ok(found)
}

/// The names of fields or parameters.
pub fn names_of(alloc: Global, trees: &[ParamTree]) -> Result<Items<Ident>, NoMemory>
    ensures { IfOk result (λ all. all ≡ map (λ p. p.name) trees.now) }
{
    let mut names = Items::new(alloc);
    for tree in trees {
        names.push(tree.name.copy(alloc)?)?;
    }
    Ok(names)
}

/// A data type, after `count` others, and its faults.
pub fn node(
    alloc: Global,
    n: &mut Numbering,
    table: &Table,
    count: usize,
    tree: &DataTree,
) -> Result<NodeDef, NoMemory>
    ensures { Builds (spec.node table.now count tree.now n.old) result n.new }
{
    let name = tree.name.text.copy(alloc)?;
    limit(n, 256, Limit::Nodes, tree.at, count)?;
    let names = names_of(alloc, tree.fields.as_slice())?;
    let names = Directory::new(alloc, names)?;
    blame_repeated(alloc, n, &names)?;
    let fields = fields(alloc, n, table, tree.fields.as_slice())?;
    Ok(NodeDef { name, fields })
}

fn param(alloc: Global, n: &mut Numbering, count: usize, x: &Ident) -> Result<Var, NoMemory>
    ensures { Builds (spec.param count x.now n.old) result n.new }
{
    limit(n, 16, Limit::Params, x.at, count)?;
    n.fix(alloc, x)
}

fn param_vars(alloc: Global, n: &mut Numbering, xs: &[Ident]) -> Result<Items<Var>, NoMemory>
    ensures { Builds (each_counted spec.param xs.now n.old) result n.new }
{
    let mut vars = Items::new(alloc);
    for x in xs {
        vars.push(param(alloc, n, vars.len(), x)?)?;
    }
    Ok(vars)
}

// Numbers `self` and the parameters.
fn params(alloc: Global, n: &mut Numbering, at: u32, xs: &[Ident]) -> Result<Items<Var>, NoMemory>
    ensures { Builds (spec.params at xs.now n.old) result n.new }
{
    fix_self(alloc, n, at)?;
    let names = Directory::of(alloc, xs)?;
    blame_repeated(alloc, n, &names)?;
    param_vars(alloc, n, xs)
}

fn invariant(
    alloc: Global,
    n: &mut Numbering,
    items: &Option<Items<ItemTree>>,
) -> Result<Pure, NoMemory>
    ensures { Builds (spec.invariant items.now n.old) result n.new }
{
    match items {
        None => Ok(Pure::And(Items::new(alloc))),
        Some(items) => conjunction(alloc, n, items.as_slice()),
    }
}

/// A predicate with its source names, after `count` others, and its faults. It is numbered by itself.
pub fn pred(
    alloc: Global,
    n: &mut Numbering,
    table: &Table,
    count: usize,
    tree: &PredTree,
) -> Result<(PredDef, Names), NoMemory>
    ensures { Builds (spec.pred table.now count tree.now n.old) result n.new }
{
    let name = tree.name.text.copy(alloc)?;
    begin(alloc, n, Reading::Closed);
    limit(n, 256, Limit::Preds, tree.at, count)?;
    let params = params(alloc, n, tree.at, tree.params.as_slice())?;
    let body = table.formula(alloc, n, &tree.body)?;
    let inv = invariant(alloc, n, &tree.inv)?;
    let next = n.next();
    let names = take_names(alloc, n);
    let def = PredDef {
        name,
        params,
        body,
        inv,
        next,
    };
    Ok((def, names))
}

fn blame_param_kind(n: &mut Numbering, is_bag: bool, x: &Ident) -> Result<(), NoMemory>
    ensures { Builds (spec.blame_param_kind (is_bag, x.now) n.old) result n.new }
{
    if is_bag != is_upper(&x.text) {
        n.blame(x.at, Problem::Kind)?;
    }
    Ok(())
}

fn blame_param_kinds(n: &mut Numbering, kinds: &[bool], xs: &[Ident]) -> Result<(), NoMemory>
    ensures { OnOk result (n.new ≡ (each spec.blame_param_kind (zip kinds.now xs.now) n.old).1) }
{
    for i in 0..xs.len() {
        if i >= kinds.len() {
            return Ok(());
        }
        blame_param_kind(n, kinds[i], &xs[i])?;
    }
    Ok(())
}

// The predicate of a lemma, by what its name declares.
fn lemma_pred(
    alloc: Global,
    n: &mut Numbering,
    table: &Table,
    tree: &LemmaTree,
) -> Result<u32, NoMemory>
    ensures { Builds (spec.lemma_pred table.now tree.now n.old) result n.new }
{
    if let Some(entry) = table.get(&tree.pred.text) {
        if let Of::Pred(k) = entry.of {
            if entry.kinds.len() != tree.params.len() {
                n.blame(tree.pred.at, Problem::Arity)?;
            }
            blame_param_kinds(n, entry.kinds.as_slice(), tree.params.as_slice())?;
            return Ok(k);
        }
    }
    undeclared(alloc, n, &tree.pred)?;
    Ok(0)
}

/// A lemma with its source names, after `count` others, and its faults. It is numbered by itself.
pub fn lemma(
    alloc: Global,
    n: &mut Numbering,
    table: &Table,
    count: usize,
    tree: &LemmaTree,
) -> Result<(Lemma, Names), NoMemory>
    ensures { Builds (spec.lemma table.now count tree.now n.old) result n.new }
{
    let name = tree.name.text.copy(alloc)?;
    begin(alloc, n, Reading::Closed);
    limit(n, 64, Limit::Lemmas, tree.at, count)?;
    let pred = lemma_pred(alloc, n, table, tree)?;
    let params = params(alloc, n, tree.at, tree.params.as_slice())?;
    let right = table.disjunct(alloc, n, &tree.right)?;
    let next = n.next();
    let names = take_names(alloc, n);
    let lemma = Lemma {
        name,
        pred,
        params,
        right,
        next,
    };
    Ok((lemma, names))
}
