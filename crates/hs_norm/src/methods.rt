//! Methods.

ghost use Rattle.std.specs.Prelude.{◌≡◌, is_some, IfOk};
ghost use Rattle.hs_numbering.specs.Numbering.{Builds, each_counted};
ghost use Rattle.hs_norm_item.specs.Claims as claims;
ghost use Rattle.hs_norm.specs.Normal as spec;

use crate::resolved::{MethodTree, Param};
use hs_declared::{Declarations, Directory, blame_repeated, optional_type, type_of};
use hs_norm_block::{block, push_locals};
use hs_norm_item::{PairTree, limit, names_of, pair};
use hs_numbering::{Limit, Numbering, Problem, is_upper};
use hs_pure::NoMemory;
use hs_tree::{Ident, MethodSource, PairSource, ParamTree};
use sqlite_items::Items;
use std::alloc::Global;

fn method_param(
    alloc: Global,
    n: &mut Numbering,
    d: &Declarations,
    count: usize,
    tree: &ParamTree,
) -> Result<Param, NoMemory>
    ensures { Builds (spec.method_param d.now.table count tree.now n.old) result n.new }
{
    limit(n, 16, Limit::Params, tree.at, count)?;
    if is_upper(&tree.name.text) {
        n.blame(tree.name.at, Problem::Kind)?;
    }
    let kind = type_of(alloc, n, &d.table, &tree.kind)?;
    Ok(Param {
        name: tree.name.text.copy(alloc)?,
        kind,
    })
}

fn method_params(
    alloc: Global,
    n: &mut Numbering,
    d: &Declarations,
    trees: &[ParamTree],
) -> Result<Items<Param>, NoMemory>
    ensures { Builds (each_counted (spec.method_param d.now.table) trees.now n.old) result n.new }
{
    let mut found = Items::new(alloc);
    for tree in trees {
        found.push(method_param(alloc, n, d, found.len(), tree)?)?;
    }
    Ok(found)
}

fn pairs(
    alloc: Global,
    n: &mut Numbering,
    d: &Declarations,
    params: &[ParamTree],
    has_result: bool,
    trees: &[PairSource],
) -> Result<Items<PairTree>, NoMemory>
    ensures { Builds (each_counted (claims.pair d.now.table params.now has_result) trees.now n.old) result n.new }
{
    let mut found = Items::new(alloc);
    for tree in trees {
        found.push(pair(alloc, n, &d.table, params, has_result, found.len(), tree)?)?;
    }
    Ok(found)
}

fn own_pairs(
    alloc: Global,
    n: &mut Numbering,
    d: &Declarations,
    tree: &MethodSource,
) -> Result<Items<PairTree>, NoMemory>
    ensures { Builds (each_counted (claims.pair d.now.table tree.now.params (is_some tree.now.result)) tree.now.pairs n.old) result n.new }
{
    let has_result = tree.result.is_some();
    pairs(
        alloc,
        n,
        d,
        tree.params.as_slice(),
        has_result,
        tree.pairs.as_slice(),
    )
}

// The parameters and locals of a method.
fn own_names(alloc: Global, tree: &MethodSource) -> Result<Items<Ident>, NoMemory>
    ensures { IfOk result (λ all. all ≡ spec.own_names tree.now) }
{
    let mut names = names_of(alloc, tree.params.as_slice())?;
    push_locals(alloc, &mut names, &tree.block)?;
    Ok(names)
}

// The faults of the block of a method, second declarations first.
fn body(
    alloc: Global,
    n: &mut Numbering,
    d: &Declarations,
    tree: &MethodSource,
) -> Result<(), NoMemory>
    ensures { Builds (spec.body d.now tree.now n.old) result n.new }
{
    let names = Directory::new(alloc, own_names(alloc, tree)?)?;
    blame_repeated(alloc, n, &names)?;
    block(alloc, n, d, &names, &tree.block)
}

/// A method, after `count` others, and its faults.
pub fn method(
    alloc: Global,
    n: &mut Numbering,
    d: &Declarations,
    count: usize,
    tree: &MethodSource,
) -> Result<MethodTree, NoMemory>
    ensures { Builds (spec.method d.now count tree.now n.old) result n.new }
{
    let name = tree.name.text.copy(alloc)?;
    limit(n, 1024, Limit::Methods, tree.at, count)?;
    let params = method_params(alloc, n, d, tree.params.as_slice())?;
    let result = optional_type(alloc, n, &d.table, &tree.result)?;
    let pairs = own_pairs(alloc, n, d, tree)?;
    body(alloc, n, d, tree)?;
    let block = tree.block.copy(alloc)?;
    Ok(MethodTree {
        name,
        params,
        result,
        pairs,
        block,
    })
}
