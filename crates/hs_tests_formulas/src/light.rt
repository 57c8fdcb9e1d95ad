//! The weight of sums.

ghost use Rattle.std.specs.Prelude.{IsTrue, IfOk};
ghost use Rattle.std.specs.List.{All};
ghost use Rattle.hs_pure.specs.Sums.{IsLight};

use crate::NoRow;
use hs_heap::{Defs, Disjunct};
use hs_pure::{Pure, Var};
use sqlite_items::Items;
use std::alloc::Global;
use std::cmp::max;

// The greatest number of a row that is renamed.
const MOST: u32 = 1000;

fn top(ps: &[Pure]) -> u32 {
    let mut top = 0;
    for p in ps {
        top = max(top, p.top());
    }
    top
}

fn any_has(ps: &[Pure], v: Var) -> bool {
    for p in ps {
        if p.has(v) {
            return true;
        }
    }
    false
}

// Those of a kind with numbers up to `top` that are free.
fn push_free(free: &mut Vec<Var>, ps: &[Pure], top: u32, bag: bool) -> Result<(), NoRow> {
    for i in 0..top {
        let v = Var { number: i + 1, bag };
        if any_has(ps, v) {
            free.push(v)?;
        }
    }
    Ok(())
}

fn free(alloc: Global, ps: &[Pure], top: u32) -> Result<Vec<Var>, NoRow> {
    let mut free = Vec::new(alloc);
    push_free(&mut free, ps, top, false)?;
    push_free(&mut free, ps, top, true)?;
    Ok(free)
}

/// Whether the case is well formed over no definitions: then the numbers of each sum of its conjuncts add up to at
/// most 2^126.
pub fn is_light(alloc: Global, case: &Disjunct) -> Result<bool, NoRow>
    ensures { IfOk result (λ b. IsTrue b → All IsLight case.now.pure) }
{
    let defs = Defs {
        nodes: Items::new(alloc),
        preds: Items::new(alloc),
        lemmas: Items::new(alloc),
    };
    let ps = case.pure.as_slice();
    let top = top(ps);
    if top > MOST {
        return Err(NoRow);
    }
    let free = free(alloc, ps, top)?;
    Ok(case.fits(&defs, free.as_slice(), top + 1))
}
