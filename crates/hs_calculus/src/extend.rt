//! Rows of one derivation for each goal.
ghost use Rattle.std.specs.Prelude.{◌≡◌, ◌++◌, ◌∷◌, [], ◌<◌, IfOk, map, take, length, vec_len};
ghost use Rattle.hs_calculus.specs.Search.{extended};

use crate::calculus::Calculus;
use hs_text::NoMemory;
use std::alloc::Global;

/// The one row of nothing.
pub fn one_row<P: Drop>(alloc: Global) -> Result<Vec<Vec<P>>, NoMemory>
    ensures { IfOk result (λ rows. map (λ row. row.items) rows.items ≡ [] ∷ []) }
{
    let mut rows = Vec::new(alloc);
    rows.push(Vec::new(alloc))?;
    Ok(rows)
}

/// These, and those behind them.
pub fn joined<P: Drop>(mut front: Vec<P>, mut rest: Vec<P>) -> Result<Vec<P>, NoMemory>
    ensures { IfOk result (λ all. all.items ≡ front.items ++ rest.items) }
{
    front.append(&mut rest)?;
    Ok(front)
}

/// The first of the rows that are one of `rows`, longer by one of `found`. One row and one of `found` are not copied.
pub fn extend_each<C: Calculus>(
    c: &C,
    alloc: Global,
    rows: Vec<Vec<C::Proof>>,
    found: Vec<C::Proof>,
    wanted: usize,
) -> Result<Vec<Vec<C::Proof>>, NoMemory>
    requires { 0 < wanted }
    ensures { IfOk result (λ longer. map (λ row. row.items) longer.items ≡ take wanted (extended (map (λ row. row.items) rows.items) found.items)) }
{
    if rows.len() == 1 && found.len() == 1 {
        extend_one(rows, found)
    } else {
        extend_copies(c, alloc, &rows, &found, wanted)
    }
}

/// One row, longer by one.
fn extend_one<P: Drop>(mut rows: Vec<Vec<P>>, mut found: Vec<P>) -> Result<Vec<Vec<P>>, NoMemory>
    requires rows { vec_len rows ≡ 1 }
    requires found { vec_len found ≡ 1 }
    ensures { IfOk result (λ longer. map (λ row. row.items) longer.items ≡ extended (map (λ row. row.items) rows.items) found.items) }
{
    rows[0].push(found.remove(0))?;
    Ok(rows)
}

/// The same of copies.
fn extend_copies<C: Calculus>(
    c: &C,
    alloc: Global,
    rows: &[Vec<C::Proof>],
    found: &[C::Proof],
    wanted: usize,
) -> Result<Vec<Vec<C::Proof>>, NoMemory>
    ensures { IfOk result (λ longer. map (λ row. row.items) longer.items ≡ take wanted (extended (map (λ row. row.items) rows.now) found.now)) }
{
    let mut longer = Vec::new(alloc);
    for row in rows {
        let room = wanted - longer.len();
        let mut more = extend(c, alloc, row, found, room)?;
        longer.append(&mut more)?;
    }
    Ok(longer)
}

/// The first of the rows that are `row`, longer by one of `found`.
fn extend<C: Calculus>(
    c: &C,
    alloc: Global,
    row: &[C::Proof],
    found: &[C::Proof],
    room: usize,
) -> Result<Vec<Vec<C::Proof>>, NoMemory>
    ensures { IfOk result (λ longer. map (λ row. row.items) longer.items ≡ take room (map (λ last. row.now ++ last ∷ []) found.now)) }
{
    let mut longer = Vec::new(alloc);
    for last in &found[..room.min(found.len())] {
        let mut parts = copy_all(c, alloc, row)?;
        parts.push(c.copy(alloc, last)?)?;
        longer.push(parts)?;
    }
    Ok(longer)
}

fn copy_all<C: Calculus>(c: &C, alloc: Global, row: &[C::Proof]) -> Result<Vec<C::Proof>, NoMemory>
    ensures { IfOk result (λ copy. copy.items ≡ row.now) }
{
    let mut copy = Vec::new(alloc);
    for proof in row {
        copy.push(c.copy(alloc, proof)?)?;
    }
    Ok(copy)
}
