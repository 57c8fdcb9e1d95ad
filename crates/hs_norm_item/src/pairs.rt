//! The pairs of a method.

ghost use Rattle.std.specs.Prelude.{◌≡◌, OnOk};
ghost use Rattle.hs_numbering.specs.Numbering.{Builds, each, fix};
ghost use Rattle.hs_norm_item.specs.Claims as spec;

use crate::claim::{begin, known_vars, learn_res, limit, reserve, take_names};
use crate::forms::PairTree;
use hs_declared::Table;
use hs_norm_formula::number_expr;
use hs_numbering::{Limit, Numbering, Reading};
use hs_pure::{Lin, NoMemory};
use hs_tree::{ExprTree, PairSource, ParamTree};
use std::alloc::Global;

fn variant(
    alloc: Global,
    n: &mut Numbering,
    tree: &Option<ExprTree>,
) -> Result<Option<Lin>, NoMemory>
    ensures { Builds (spec.variant tree.now n.old) result n.new }
{
    match tree {
        None => Ok(None),
        Some(tree) => Ok(Some(number_expr(alloc, n, tree)?)),
    }
}

// Numbers the parameters of a method.
fn fix_params(alloc: Global, n: &mut Numbering, params: &[ParamTree]) -> Result<(), NoMemory>
    ensures { OnOk result (n.new ≡ (each (λ p. fix p.name) params.now n.old).1) }
{
    for param in params {
        n.fix(alloc, &param.name)?;
    }
    Ok(())
}

/// A pair of a method with these parameters, after `count` others, and its faults. It is numbered by itself.
pub fn pair(
    alloc: Global,
    n: &mut Numbering,
    table: &Table,
    params: &[ParamTree],
    has_result: bool,
    count: usize,
    tree: &PairSource,
) -> Result<PairTree, NoMemory>
    ensures { Builds (spec.pair table.now params.now has_result count tree.now n.old) result n.new }
{
    begin(alloc, n, Reading::Open);
    limit(n, 16, Limit::Pairs, tree.at, count)?;
    fix_params(alloc, n, params)?;
    let res = reserve(alloc, n, tree.at)?;
    let pair_pre = table.formula(alloc, n, &tree.pre)?;
    let logic = known_vars(alloc, n)?;
    n.read_as(Reading::Closed);
    let variant = variant(alloc, n, &tree.variant)?;
    learn_res(alloc, n, has_result, tree.at, res)?;
    let pair_post = table.formula(alloc, n, &tree.post)?;
    let next = n.next();
    let names = take_names(alloc, n);
    Ok(PairTree {
        pair_pre,
        pair_post,
        logic,
        next,
        names,
        variant,
    })
}
