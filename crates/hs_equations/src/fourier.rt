//! Sums that are at least 0, joined so that one variable after another goes.

ghost use Rattle.std.specs.Prelude.{◌≡◌, ◌≤ℤ◌, pos, IfOk, IsTrue};
ghost use Rattle.std.specs.List.{All};
ghost use Rattle.hs_pure.specs.Stack.{Stack};
ghost use Rattle.hs_pure.specs.Truth.{value};
ghost use Rattle.hs_equations.specs.Rows.{Says, IsMet};
ghost use Rattle.hs_equations.specs.Towers.{IsTower, IsTowerStill};

use crate::clash::cancel;
use crate::halt::{Halt, charge};
use crate::linear::{combined, scaled};
use crate::parts::{Parted, Sieve, part_rows};
use crate::row::{Kind, Row, common, divided};
use hs_cooper_forms::coefficient;
use hs_pure::{Lin, Var};
use sqlite_items::Items;
use std::alloc::Global;

/// Rows that are left, rows of the variables that went, and these in the order in which they went.
#[derive(Debug, Drop)]
pub(crate) struct Tower {
    pub(crate) left: Items<Row>,
    pub(crate) done: Items<Row>,
    pub(crate) order: Items<Var>,
}

// The variables that go at most.
const ROUNDS: u32 = 10_000;

// `k` times the first sum and `m` times the second, added up.
fn joined(alloc: Global, k: i128, low: &Lin, m: i128, high: &Lin) -> Result<Row, Halt>
    ensures { IfOk result (λ r. (s : Stack) → pos 0 ≤ℤ value s low.now → pos 0 ≤ℤ value s high.now → IsMet s r) }
{
    if k < 0 {
        return Err(Halt::Spent);
    }
    if m < 0 {
        return Err(Halt::Spent);
    }
    let part = scaled(alloc, m, high)?;
    let sum = combined(alloc, k, low, &part)?;
    divided(
        alloc,
        Row {
            kind: Kind::Least,
            sum,
        },
    )
}

// Whether a row says nothing, or not more than another.
fn is_idle(rows: &[Row], row: &Row) -> bool {
    if row.sum.terms.is_empty() && row.kind.says(row.sum.constant) {
        return true;
    }
    for other in rows {
        if other.kind == row.kind
            && other.sum.constant <= row.sum.constant
            && cancel(-1, other.sum.terms.as_slice(), row.sum.terms.as_slice())
        {
            return true;
        }
    }
    false
}

// One more row, unless it says nothing more.
fn put_row(rows: Items<Row>, row: Row) -> Result<Items<Row>, Halt>
    ensures { IfOk result (λ all. (s : Stack) → All (IsMet s) rows → IsMet s row → All (IsMet s) all) }
{
    if is_idle(rows.as_slice(), &row) {
        return Ok(rows);
    }
    let mut all = rows;
    all.push(row)?;
    Ok(all)
}

// The greatest common divisor of two coefficients, or 1.
fn common_of(p: i128, q: i128) -> i128 {
    match i128::try_from(common(p.unsigned_abs(), q.unsigned_abs())) {
        Ok(g) if g > 1 => g,
        _ => 1,
    }
}

/// What two sums are multiplied by, so that a variable goes.
#[derive(Clone, Copy, Debug, PartialEq, Eq)]
struct Factors {
    low: i128,
    high: i128,
}

// Factors that let `x` go, where the first sum has it positive and the second negative.
fn factors_of(low: &Row, high: &Row, x: Var) -> Option<Factors> {
    if low.kind != Kind::Least || high.kind != Kind::Least {
        return None;
    }
    let p = coefficient(&low.sum, x);
    let Some(q) = coefficient(&high.sum, x).checked_neg() else {
        return None;
    };
    if p <= 0 || q <= 0 {
        return None;
    }
    let g = common_of(p, q);
    let Some(k) = q.checked_div(g) else {
        return None;
    };
    match p.checked_div(g) {
        Some(m) => Some(Factors { low: k, high: m }),
        None => None,
    }
}

// One more row of two in which `x` is gone, if it goes in them.
fn put_pair(
    alloc: Global,
    x: Var,
    low: &Row,
    high: &Row,
    rows: Items<Row>,
    steps: &mut u64,
) -> Result<Items<Row>, Halt>
    ensures { IfOk result (λ all. (s : Stack) → IsMet s low.now → IsMet s high.now → All (IsMet s) rows → All (IsMet s) all) }
{
    let Some(by) = factors_of(low, high, x) else {
        return Ok(rows);
    };
    charge(steps, rows.len())?;
    let row = joined_rows(alloc, by.low, low, by.high, high)?;
    put_row(rows, row)
}

fn joined_rows(alloc: Global, k: i128, low: &Row, m: i128, high: &Row) -> Result<Row, Halt>
    ensures { IfOk result (λ r. (s : Stack) → IsMet s low.now → IsMet s high.now → IsMet s r) }
{
    match low.kind {
        Kind::Least => joined_with(alloc, k, &low.sum, m, high),
        Kind::Zero => Err(Halt::Spent),
        Kind::Apart => Err(Halt::Spent),
    }
}

fn joined_with(alloc: Global, k: i128, low: &Lin, m: i128, high: &Row) -> Result<Row, Halt>
    ensures { IfOk result (λ r. (s : Stack) → pos 0 ≤ℤ value s low.now → IsMet s high.now → IsMet s r) }
{
    match high.kind {
        Kind::Least => joined(alloc, k, low, m, &high.sum),
        Kind::Zero => Err(Halt::Spent),
        Kind::Apart => Err(Halt::Spent),
    }
}

// The rows of one and of each of the others in which `x` is gone.
fn put_pairs(
    alloc: Global,
    x: Var,
    low: &Row,
    highs: &[Row],
    rows: Items<Row>,
    steps: &mut u64,
) -> Result<Items<Row>, Halt>
    ensures { IfOk result (λ all. (s : Stack) → IsMet s low.now → All (IsMet s) highs.now → All (IsMet s) rows → All (IsMet s) all) }
{
    let mut now = rows;
    for high in highs {
        now = put_pair(alloc, x, low, high, now, steps)?;
    }
    Ok(now)
}

// The rows of each two in which `x` is gone.
fn put_all(
    alloc: Global,
    x: Var,
    old: &[Row],
    rows: Items<Row>,
    steps: &mut u64,
) -> Result<Items<Row>, Halt>
    ensures { IfOk result (λ all. (s : Stack) → All (IsMet s) old.now → All (IsMet s) rows → All (IsMet s) all) }
{
    let mut now = rows;
    for low in old {
        now = put_pairs(alloc, x, low, old, now, steps)?;
    }
    Ok(now)
}

// The tower without one more variable.
fn without(alloc: Global, tower: Tower, x: Var, steps: &mut u64) -> Result<Tower, Halt>
    ensures { IfOk result (λ t. (s : Stack) → IsTower s tower → IsTower s t) }
{
    let Tower {
        left,
        mut done,
        mut order,
    } = tower;
    let parts = part_rows(alloc, left, &Sieve::Variable(x))?;
    let Parted { kept, woken } = parts;
    let left = put_all(alloc, x, woken.as_slice(), kept, steps)?;
    done.append(woken)?;
    order.push(x)?;
    Ok(Tower { left, done, order })
}

// How many rows come of letting a variable go, or more where it goes in none.
fn cost(rows: &[Row], x: Var) -> u64 {
    let mut lows: u64 = 0;
    let mut highs: u64 = 0;
    for row in rows {
        let c = coefficient(&row.sum, x);
        if row.kind == Kind::Least && c > 0 {
            lows = lows.saturating_add(1);
        } else if row.kind == Kind::Least && c < 0 {
            highs = highs.saturating_add(1);
        }
    }
    lows.saturating_mul(highs)
}

// The variable that goes next: one of which the fewest rows come.
fn next_variable(rows: &[Row]) -> Option<Var> {
    let mut best = None;
    let mut least = u64::MAX;
    for row in rows {
        for t in row.sum.terms.as_slice() {
            let cost = cost(rows, t.0);
            if cost == 0 {
                return Some(t.0);
            }
            if cost < least {
                best = Some(t.0);
                least = cost;
            }
        }
    }
    best
}

// Whether some row is false at all stacks.
fn has_false(rows: &[Row]) -> bool
    ensures { IsTrue result → (s : Stack) → ¬ (All (IsMet s) rows.now) }
{
    for row in rows {
        if row.is_false() {
            return true;
        }
    }
    false
}

// Rows with what follows from them; none where they contradict one another.
pub(crate) fn raise_tower(
    alloc: Global,
    rows: Items<Row>,
    steps: &mut u64,
) -> Result<Option<Tower>, Halt>
    ensures { IfOk result (λ o. (s : Stack) → All (IsMet s) rows → IsTowerStill s o) }
{
    let mut now = Tower {
        left: rows,
        done: Items::new(alloc),
        order: Items::new(alloc),
    };
    'going: for _ in 0..ROUNDS {
        if has_false(now.left.as_slice()) {
            return Ok(None);
        }
        let Some(x) = next_variable(now.left.as_slice()) else {
            return Ok(Some(now));
        };
        now = without(alloc, now, x, steps)?;
    }
    Err(Halt::Spent)
}
