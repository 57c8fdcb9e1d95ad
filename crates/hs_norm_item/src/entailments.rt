//! Entailments.

ghost use Rattle.std.specs.Prelude.{◌≡◌, ◌<◌, IfOk, filter};
ghost use Rattle.std.specs.List.{All};
ghost use Rattle.hs_numbering.specs.Numbering.{Builds};
ghost use Rattle.hs_norm_item.specs.Claims as spec;
ghost use Rattle.hs_norm_item.specs.Free.{is_told_open};

use crate::claim::{begin, known_vars, limit, take_names};
use crate::forms::Entailment;
use crate::free::{Free, free_vars, tells};
use hs_declared::Table;
use hs_heap::Formula;
use hs_numbering::{Limit, Numbering, Reading};
use hs_pure::{NoMemory, Var};
use hs_tree::EntailTree;
use sqlite_items::Items;
use std::alloc::Global;
use std::cmp::max;

// More than the number of each variable.
fn beyond(vars: &[Var]) -> usize
    ensures { All (λ v. v.number < result) vars.now }
{
    let mut count = 0;
    for v in vars {
        count = max(count, v.number as usize + 1);
    }
    count
}

// Those that the right table tells and the left one doesn't.
fn opens_by(
    alloc: Global,
    vars: &[Var],
    left: &[Free],
    right: &[Free],
) -> Result<Items<Var>, NoMemory>
    ensures { IfOk result (λ all. all ≡ filter (is_told_open left.now right.now) vars.now) }
{
    let mut opens = Items::new(alloc);
    for v in vars {
        if tells(right, *v) && !tells(left, *v) {
            opens.push(*v)?;
        }
    }
    Ok(opens)
}

// Those that are free on the right and not on the left. Each side is gone through once.
fn opens_among(
    alloc: Global,
    vars: &[Var],
    left: &Formula,
    right: &Formula,
) -> Result<Items<Var>, NoMemory>
    ensures { IfOk result (λ all. all ≡ spec.opens_among vars.now left.now right.now) }
{
    let count = beyond(vars);
    let on_left = free_vars(alloc, count, left)?;
    let on_right = free_vars(alloc, count, right)?;
    opens_by(alloc, vars, &on_left, &on_right)
}

/// An entailment, after `count` others, and its faults. It is numbered by itself.
pub fn entailment(
    alloc: Global,
    n: &mut Numbering,
    table: &Table,
    count: usize,
    tree: &EntailTree,
) -> Result<Entailment, NoMemory>
    ensures { Builds (spec.entailment table.now count tree.now n.old) result n.new }
{
    begin(alloc, n, Reading::Open);
    limit(n, 1024, Limit::Entailments, tree.at, count)?;
    let left = table.formula(alloc, n, &tree.left)?;
    let right = table.formula(alloc, n, &tree.right)?;
    let vars = known_vars(alloc, n)?;
    let next = n.next();
    let names = take_names(alloc, n);
    let opens = opens_among(alloc, vars.as_slice(), &left, &right)?;
    Ok(Entailment {
        left,
        right,
        opens,
        next,
        names,
    })
}
