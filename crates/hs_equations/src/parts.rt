//! Rows in two parts: those that stay as they are, and those that are taken in once more.

ghost use Rattle.std.specs.Prelude.{◌≡◌, IfOk};
ghost use Rattle.std.specs.List.{All};
ghost use Rattle.hs_pure.specs.Stack.{Stack};
ghost use Rattle.hs_equations.specs.Rows.{IsMet, AreParts};

use crate::clash::cancel;
use crate::halt::Halt;
use crate::row::{Kind, Row};
use hs_cooper_forms::coefficient;
use hs_pure::{Lin, Var};
use sqlite_items::Items;
use std::alloc::Global;

/// Rows in two parts.
#[derive(Debug, Drop)]
pub(crate) struct Parted {
    pub(crate) kept: Items<Row>,
    pub(crate) woken: Items<Row>,
}

/// What becomes of a row.
#[derive(Clone, Copy, Debug, PartialEq, Eq)]
pub(crate) enum Fate {
    /// It stays.
    Stays,
    /// It stays, and says what is new already.
    Covers,
    /// It goes, as it says less than what is new.
    Goes,
    /// It is taken in once more.
    Wakes,
}

/// What rows are parted by.
#[derive(Clone, Copy, Debug)]
pub(crate) enum Sieve<'a> {
    /// A variable is solved for.
    Variable(Var),
    /// A sum is at least 0.
    Beside(&'a Lin),
}

// What becomes of a row where a sum is at least 0.
pub(crate) fn fate_beside(row: &Row, sum: &Lin) -> Fate {
    let same = cancel(-1, row.sum.terms.as_slice(), sum.terms.as_slice());
    match row.kind {
        Kind::Zero => Fate::Stays,
        Kind::Least => {
            if !same {
                Fate::Stays
            } else if row.sum.constant <= sum.constant {
                Fate::Covers
            } else {
                Fate::Goes
            }
        }
        Kind::Apart => {
            if same || cancel(1, row.sum.terms.as_slice(), sum.terms.as_slice()) {
                Fate::Wakes
            } else {
                Fate::Stays
            }
        }
    }
}

fn fate_of(row: &Row, sieve: &Sieve) -> Fate {
    match sieve {
        Sieve::Variable(x) => {
            if coefficient(&row.sum, *x) == 0 {
                Fate::Stays
            } else {
                Fate::Wakes
            }
        }
        Sieve::Beside(sum) => fate_beside(row, sum),
    }
}

// One more row that stays.
fn hold(parts: Parted, row: Row) -> Result<Parted, Halt>
    ensures { IfOk result (λ p. (s : Stack) → AreParts s parts → IsMet s row → AreParts s p) }
{
    let Parted { mut kept, woken } = parts;
    kept.push(row)?;
    Ok(Parted { kept, woken })
}

// One more row that is taken in once more.
fn wake(parts: Parted, row: Row) -> Result<Parted, Halt>
    ensures { IfOk result (λ p. (s : Stack) → AreParts s parts → IsMet s row → AreParts s p) }
{
    let Parted { kept, mut woken } = parts;
    woken.push(row)?;
    Ok(Parted { kept, woken })
}

// One more row, by its fate.
fn put(parts: Parted, row: Row, fate: Fate) -> Result<Parted, Halt>
    ensures { IfOk result (λ p. (s : Stack) → AreParts s parts → IsMet s row → AreParts s p) }
{
    match fate {
        Fate::Stays => hold(parts, row),
        Fate::Covers => hold(parts, row),
        Fate::Wakes => wake(parts, row),
        Fate::Goes => Ok(parts),
    }
}

// The rows in two parts; those that go are left out.
pub(crate) fn part_rows(alloc: Global, rows: Items<Row>, sieve: &Sieve) -> Result<Parted, Halt>
    ensures { IfOk result (λ p. (s : Stack) → All (IsMet s) rows → AreParts s p) }
{
    let mut left = rows;
    let mut parts = Parted {
        kept: Items::new(alloc),
        woken: Items::new(alloc),
    };
    while let Some(row) = left.pop() {
        let fate = fate_of(&row, sieve);
        parts = put(parts, row, fate)?;
    }
    Ok(parts)
}
