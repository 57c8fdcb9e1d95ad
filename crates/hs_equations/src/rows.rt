//! The rows of a state, and how a row is taken in. Each step keeps every stack at which the rows are true.

ghost use Rattle.std.specs.Prelude.{◌≡◌, ◌+ℤ◌, ◌*ℤ◌, ◌≤ℤ◌, negsuc, pos, IfOk, IfSome, IsTrue};
ghost use Rattle.std.specs.List.{All};
ghost use Rattle.hs_pure.specs.Stack.{Stack};
ghost use Rattle.hs_pure.specs.Truth.{value};
ghost use Rattle.hs_equations.specs.Rows.{IsMet, IsSolved, Holds, HoldsStill, ArePopped, AreStepped};

use crate::clash::{cancel, cancelled, clash_any};
use crate::halt::{Halt, charge};
use crate::linear::{negated, shifted};
use crate::parts::{Fate, Parted, Sieve, fate_beside, part_rows};
use crate::row::{Kind, Row, Solved, reduced, without_pivot};
use hs_cooper_forms::coefficient;
use hs_pure::{Lin, Var};
use sqlite_items::Items;
use std::alloc::Global;

/// Rows, and those that wait to be taken in.
#[derive(Debug, Drop)]
pub(crate) struct Rows {
    pub(crate) solved: Items<Solved>,
    pub(crate) taken: Items<Row>,
    pub(crate) pending: Items<Row>,
}

// The rows that are taken in at most.
const ROUNDS: u32 = 1_000_000;

// The equations with the pivot of one more replaced.
fn replaced(alloc: Global, e: &Solved, solved: Items<Solved>) -> Result<Items<Solved>, Halt>
    ensures { IfOk result (λ all. (s : Stack) → IsSolved s e.now → All (IsSolved s) solved → All (IsSolved s) all) }
{
    let mut left = solved;
    let mut all = Items::new(alloc);
    while let Some(old) = left.pop() {
        let Solved { pivot, sum } = old;
        let sum = without_pivot(alloc, e, sum)?;
        all.push(Solved { pivot, sum })?;
    }
    Ok(all)
}

// The rows with one more equation, whose pivot is replaced everywhere.
fn solve_for(alloc: Global, rows: Rows, e: Solved) -> Result<Rows, Halt>
    ensures { IfOk result (λ r. (s : Stack) → Holds s rows → IsSolved s e → Holds s r) }
{
    let Rows {
        solved,
        taken,
        mut pending,
    } = rows;
    let mut solved = replaced(alloc, &e, solved)?;
    let parts = part_rows(alloc, taken, &Sieve::Variable(e.pivot))?;
    let Parted { kept, woken } = parts;
    solved.push(e)?;
    pending.append(woken)?;
    Ok(Rows {
        solved,
        taken: kept,
        pending,
    })
}

// A variable with the coefficient 1 or -1, and that.
fn unit_term(terms: &[(Var, i128)]) -> Option<(Var, i128)> {
    for t in terms {
        if t.1 == 1 || t.1 == -1 {
            return Some(*t);
        }
    }
    None
}

// The sum, or that with the other sign where `c` is below 0.
fn with_sign(alloc: Global, c: i128, sum: Lin) -> Result<Lin, Halt>
    ensures { IfOk result (λ r. (s : Stack) → value s sum ≡ pos 0 → value s r ≡ pos 0) }
{
    if c < 0 { negated(alloc, &sum) } else { Ok(sum) }
}

// One more row.
fn keep(rows: Rows, row: Row) -> Result<Rows, Halt>
    ensures { IfOk result (λ r. (s : Stack) → Holds s rows → IsMet s row → Holds s r) }
{
    let Rows {
        solved,
        mut taken,
        pending,
    } = rows;
    taken.push(row)?;
    Ok(Rows {
        solved,
        taken,
        pending,
    })
}

// One more row that waits.
pub(crate) fn wait(rows: Rows, row: Row) -> Result<Rows, Halt>
    ensures { IfOk result (λ r. (s : Stack) → Holds s rows → IsMet s row → Holds s r) }
{
    let Rows {
        solved,
        taken,
        mut pending,
    } = rows;
    pending.push(row)?;
    Ok(Rows {
        solved,
        taken,
        pending,
    })
}

// Takes in a sum that is 0.
fn take_zero(alloc: Global, rows: Rows, sum: Lin) -> Result<Rows, Halt>
    ensures { IfOk result (λ r. (s : Stack) → Holds s rows → value s sum ≡ pos 0 → Holds s r) }
{
    let Some((pivot, c)) = unit_term(sum.terms.as_slice()) else {
        let row = Row {
            kind: Kind::Zero,
            sum,
        };
        return keep(rows, row);
    };
    let sum = with_sign(alloc, c, sum)?;
    solve_for(alloc, rows, Solved { pivot, sum })
}

// Whether a row says that the sum is at most 0.
fn is_at_end(alloc: Global, rows: &[Row], sum: &Lin) -> Result<bool, Halt>
    ensures { IfOk result (λ r. IsTrue r → (s : Stack) → All (IsMet s) rows.now → pos 0 ≤ℤ value s sum.now → value s sum.now ≡ pos 0) }
{
    for row in rows {
        let found = bounds(alloc, row, sum)?;
        if found {
            return Ok(true);
        }
    }
    Ok(false)
}

// Whether the row says that the sum is at most 0.
fn bounds(alloc: Global, row: &Row, sum: &Lin) -> Result<bool, Halt>
    ensures { IfOk result (λ r. IsTrue r → (s : Stack) → IsMet s row.now → pos 0 ≤ℤ value s sum.now → value s sum.now ≡ pos 0) }
{
    match row.kind {
        Kind::Least => are_opposite(alloc, &row.sum, sum),
        Kind::Zero => Ok(false),
        Kind::Apart => Ok(false),
    }
}

// Whether two sums add up to 0.
fn are_opposite(alloc: Global, a: &Lin, b: &Lin) -> Result<bool, Halt>
    ensures { IfOk result (λ r. IsTrue r → (s : Stack) → value s a.now +ℤ value s b.now ≡ pos 0) }
{
    let total = cancelled(alloc, 1, a, b)?;
    match total {
        Some(z) => Ok(z == 0),
        None => Ok(false),
    }
}

// Whether a row says as much as that the sum is at least 0.
fn is_covered(rows: &[Row], sum: &Lin) -> bool {
    for row in rows {
        if fate_beside(row, sum) == Fate::Covers {
            return true;
        }
    }
    false
}

// Takes in a sum that is at least 0.
fn take_least(alloc: Global, rows: Rows, sum: Lin) -> Result<Rows, Halt>
    ensures { IfOk result (λ r. (s : Stack) → Holds s rows → pos 0 ≤ℤ value s sum → Holds s r) }
{
    let at_end = is_at_end(alloc, rows.taken.as_slice(), &sum)?;
    if at_end {
        let row = Row {
            kind: Kind::Zero,
            sum,
        };
        return wait(rows, row);
    }
    if is_covered(rows.taken.as_slice(), &sum) {
        return Ok(rows);
    }
    tighten(alloc, rows, sum)
}

// One more sum that is at least 0, in the place of rows that say less.
fn tighten(alloc: Global, rows: Rows, sum: Lin) -> Result<Rows, Halt>
    ensures { IfOk result (λ r. (s : Stack) → Holds s rows → pos 0 ≤ℤ value s sum → Holds s r) }
{
    let Rows {
        solved,
        taken,
        mut pending,
    } = rows;
    let parts = part_rows(alloc, taken, &Sieve::Beside(&sum))?;
    let Parted { mut kept, woken } = parts;
    kept.push(Row {
        kind: Kind::Least,
        sum,
    })?;
    pending.append(woken)?;
    Ok(Rows {
        solved,
        taken: kept,
        pending,
    })
}

// Whether two sums are seen to be one or to add up to 0.
fn are_alike(alloc: Global, a: &Lin, b: &Lin) -> Result<bool, Halt>
    ensures { IfOk result (λ r. IsTrue r → (s : Stack) → (¬ (value s a.now ≡ pos 0)) → ¬ (value s b.now ≡ pos 0)) }
{
    let opposite = are_opposite(alloc, a, b)?;
    let same = are_same(alloc, a, b)?;
    Ok(opposite || same)
}

// Whether two sums are seen to be one.
fn are_same(alloc: Global, a: &Lin, b: &Lin) -> Result<bool, Halt>
    ensures { IfOk result (λ r. IsTrue r → (s : Stack) → value s a.now ≡ value s b.now) }
{
    let total = cancelled(alloc, -1, a, b)?;
    match total {
        Some(z) => Ok(z == 0),
        None => Ok(false),
    }
}

// The row of a sum that is at least 0 and not 0.
fn raised(alloc: Global, row: &Row) -> Result<Row, Halt>
    ensures { IfOk result (λ r. (s : Stack) → IsMet s row.now → (¬ (value s row.now.sum ≡ pos 0)) → IsMet s r) }
{
    match row.kind {
        Kind::Least => raised_sum(alloc, &row.sum),
        Kind::Zero => row.copy(alloc),
        Kind::Apart => row.copy(alloc),
    }
}

fn raised_sum(alloc: Global, sum: &Lin) -> Result<Row, Halt>
    ensures { IfOk result (λ r. (s : Stack) → pos 0 ≤ℤ value s sum.now → (¬ (value s sum.now ≡ pos 0)) → IsMet s r) }
{
    let sum = shifted(alloc, sum, -1)?;
    Ok(Row {
        kind: Kind::Least,
        sum,
    })
}

// Whether the row says that a sum is at least 0 which is 0 only where the other is.
fn is_end(alloc: Global, row: &Row, sum: &Lin) -> Result<bool, Halt>
    ensures { IfOk result (λ r. IsTrue r → (s : Stack) → (¬ (value s sum.now ≡ pos 0)) → ¬ (value s row.now.sum ≡ pos 0)) }
{
    match row.kind {
        Kind::Least => are_alike(alloc, sum, &row.sum),
        Kind::Zero => Ok(false),
        Kind::Apart => Ok(false),
    }
}

// Of a sum that is not 0 and at an end of its range: what a row of the range says then.
fn moved_end(alloc: Global, rows: &[Row], sum: &Lin) -> Result<Option<Row>, Halt>
    ensures { IfOk result (λ o. IfSome o (λ r. (s : Stack) → All (IsMet s) rows.now → (¬ (value s sum.now ≡ pos 0)) → IsMet s r)) }
{
    for row in rows {
        let alike = is_end(alloc, row, sum)?;
        if alike {
            let moved = raised(alloc, row)?;
            return Ok(Some(moved));
        }
    }
    Ok(None)
}

// Whether a row says already that the sum is not 0.
fn is_apart(rows: &[Row], sum: &Lin) -> bool {
    for row in rows {
        if is_apart_by(row, 1, sum) || is_apart_by(row, -1, sum) {
            return true;
        }
    }
    false
}

// Whether a row says already that the sum is not 0, as it has `k` times its terms.
fn is_apart_by(row: &Row, k: i128, sum: &Lin) -> bool {
    let Some(other) = k.checked_neg() else {
        return false;
    };
    if !cancel(other, sum.terms.as_slice(), row.sum.terms.as_slice()) {
        return false;
    }
    let Some(constant) = sum.constant.checked_mul(k) else {
        return false;
    };
    match row.kind {
        Kind::Least => row.sum.constant < constant,
        Kind::Apart => row.sum.constant == constant,
        Kind::Zero => false,
    }
}

// One more sum that is not 0, unless a row says so already.
fn keep_apart(rows: Rows, sum: Lin) -> Result<Rows, Halt>
    ensures { IfOk result (λ r. (s : Stack) → Holds s rows → (¬ (value s sum ≡ pos 0)) → Holds s r) }
{
    if is_apart(rows.taken.as_slice(), &sum) {
        return Ok(rows);
    }
    let row = Row {
        kind: Kind::Apart,
        sum,
    };
    keep(rows, row)
}

// Takes in a sum that is not 0.
fn take_apart(alloc: Global, rows: Rows, sum: Lin) -> Result<Rows, Halt>
    ensures { IfOk result (λ r. (s : Stack) → Holds s rows → (¬ (value s sum ≡ pos 0)) → Holds s r) }
{
    let moved = moved_end(alloc, rows.taken.as_slice(), &sum)?;
    match moved {
        Some(row) => wait(rows, row),
        None => keep_apart(rows, sum),
    }
}

// Takes in a row without pivots that is not seen to be false.
fn take_reduced(alloc: Global, rows: Rows, row: Row) -> Result<Rows, Halt>
    ensures { IfOk result (λ r. (s : Stack) → Holds s rows → IsMet s row → Holds s r) }
{
    let Row { kind, sum } = row;
    match kind {
        Kind::Zero => take_zero(alloc, rows, sum),
        Kind::Least => take_least(alloc, rows, sum),
        Kind::Apart => take_apart(alloc, rows, sum),
    }
}

// Takes in a row; none where it contradicts the others.
fn take(alloc: Global, rows: Rows, row: Row) -> Result<Option<Rows>, Halt>
    ensures { IfOk result (λ o. (s : Stack) → Holds s rows → IsMet s row → HoldsStill s o) }
{
    let row = reduced(alloc, rows.solved.as_slice(), row)?;
    if row.is_false() {
        return Ok(None);
    }
    if row.is_fixed() {
        return Ok(Some(rows));
    }
    let found = clash_any(alloc, rows.taken.as_slice(), &row)?;
    if found {
        return Ok(None);
    }
    let rows = take_reduced(alloc, rows, row)?;
    Ok(Some(rows))
}

/// Rows, and one that waited, if any.
#[derive(Debug, Drop)]
struct Popped {
    rows: Rows,
    row: Option<Row>,
}

/// Rows, and whether more of them may wait.
#[derive(Debug, Drop)]
struct Stepped {
    rows: Rows,
    moved: bool,
}

fn pop_row(rows: Rows) -> Popped
    ensures { (s : Stack) → Holds s rows → ArePopped s result }
{
    let Rows {
        solved,
        taken,
        mut pending,
    } = rows;
    let row = pending.pop();
    let rows = Rows {
        solved,
        taken,
        pending,
    };
    Popped { rows, row }
}

fn step_by(alloc: Global, rows: Rows, row: Row) -> Result<Option<Stepped>, Halt>
    ensures { IfOk result (λ o. (s : Stack) → Holds s rows → IsMet s row → AreStepped s o) }
{
    let next = take(alloc, rows, row)?;
    match next {
        Some(rows) => Ok(Some(Stepped { rows, moved: true })),
        None => Ok(None),
    }
}

// Takes in a row that waits.
fn step(alloc: Global, rows: Rows, steps: &mut u64) -> Result<Option<Stepped>, Halt>
    ensures { IfOk result (λ o. (s : Stack) → Holds s rows → AreStepped s o) }
{
    charge(steps, rows.taken.len())?;
    let Popped { rows, row } = pop_row(rows);
    match row {
        Some(row) => step_by(alloc, rows, row),
        None => Ok(Some(Stepped { rows, moved: false })),
    }
}

// Takes in the rows that wait; none where they contradict one another.
pub(crate) fn settled(alloc: Global, rows: Rows, steps: &mut u64) -> Result<Option<Rows>, Halt>
    ensures { IfOk result (λ o. (s : Stack) → Holds s rows → HoldsStill s o) }
{
    let mut now = rows;
    'settling: for _ in 0..ROUNDS {
        let next = step(alloc, now, steps)?;
        let Some(stepped) = next else {
            return Ok(None);
        };
        let Stepped { rows, moved } = stepped;
        if !moved {
            return Ok(Some(rows));
        }
        now = rows;
    }
    Err(Halt::Spent)
}

// Whether a row is seen to be false.
pub(crate) fn is_refuted(alloc: Global, rows: &Rows, row: Row) -> Result<bool, Halt>
    ensures { IfOk result (λ r. IsTrue r → (s : Stack) → Holds s rows.now → ¬ (IsMet s row)) }
{
    let row = reduced(alloc, rows.solved.as_slice(), row)?;
    if row.is_false() {
        return Ok(true);
    }
    clash_any(alloc, rows.taken.as_slice(), &row)
}

pub(crate) fn copied_rows(alloc: Global, rows: &[Row]) -> Result<Items<Row>, Halt>
    ensures { IfOk result (λ all. all ≡ rows.now) }
{
    let mut all = Items::new(alloc);
    for row in rows {
        all.push(row.copy(alloc)?)?;
    }
    Ok(all)
}

fn copied_solved(alloc: Global, solved: &[Solved]) -> Result<Items<Solved>, Halt>
    ensures { IfOk result (λ all. all ≡ solved.now) }
{
    let mut all = Items::new(alloc);
    for e in solved {
        all.push(Solved {
            pivot: e.pivot,
            sum: e.sum.copy(alloc)?,
        })?;
    }
    Ok(all)
}

impl Rows {
    // No rows.
    pub(crate) fn new(alloc: Global) -> Rows
        ensures { (s : Stack) → Holds s result }
    {
        Rows {
            solved: Items::new(alloc),
            taken: Items::new(alloc),
            pending: Items::new(alloc),
        }
    }

    // Equal rows.
    pub(crate) fn copy(&self, alloc: Global) -> Result<Rows, Halt>
        ensures { IfOk result (λ r. r ≡ self.now) }
    {
        Ok(Rows {
            solved: copied_solved(alloc, self.solved.as_slice())?,
            taken: copied_rows(alloc, self.taken.as_slice())?,
            pending: copied_rows(alloc, self.pending.as_slice())?,
        })
    }
}
