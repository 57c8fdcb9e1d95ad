//! Derivations by a rule, and along forced steps.
ghost use Rattle.std.specs.Prelude.{◌≡◌, ◌∷◌, [], IfOk, map};
ghost use Rattle.hs_calculus.specs.Search.{MayJoinEach};
ghost use Rattle.hs_calculus.specs.Steps.{AreAlong, along};

use crate::calculus::Calculus;
use hs_text::NoMemory;
use std::alloc::Global;

/// The derivations by a rule, one from each row.
fn join_each<C: Calculus>(
    c: &C,
    alloc: Global,
    goal: &C::Goal,
    rule: &C::Rule,
    rows: Vec<Vec<C::Proof>>,
) -> Result<Vec<C::Proof>, NoMemory>
    requires { MayJoinEach (C.calculus c.now) (C.is_goal c.now) goal.now rule.now (map (λ row. row.items) rows.items) }
    ensures { IfOk result (λ found. found.items ≡ map ((C.calculus c.now).join goal.now rule.now) (map (λ row. row.items) rows.items)) }
{
    let mut found = Vec::new(alloc);
    for row in rows {
        let copy = c.copy_goal(alloc, goal)?;
        found.push(c.join(alloc, copy, c.copy_rule(alloc, rule)?, row)?)?;
    }
    Ok(found)
}

/// The same; the last takes the goal and the rule, the others copies.
pub fn join_rows<C: Calculus>(
    c: &C,
    alloc: Global,
    goal: C::Goal,
    rule: C::Rule,
    mut rows: Vec<Vec<C::Proof>>,
) -> Result<Vec<C::Proof>, NoMemory>
    requires { MayJoinEach (C.calculus c.now) (C.is_goal c.now) goal rule (map (λ row. row.items) rows.items) }
    ensures { IfOk result (λ found. found.items ≡ map ((C.calculus c.now).join goal rule) (map (λ row. row.items) rows.items)) }
{
    let Some(last) = rows.pop() else {
        return Ok(Vec::new(alloc));
    };
    let mut found = join_each(c, alloc, &goal, &rule, rows)?;
    found.push(c.join(alloc, goal, rule, last)?)?;
    Ok(found)
}

/// The same, where the goal is needed further.
pub fn join_copies<C: Calculus>(
    c: &C,
    alloc: Global,
    goal: &C::Goal,
    rule: C::Rule,
    rows: Vec<Vec<C::Proof>>,
) -> Result<Vec<C::Proof>, NoMemory>
    requires goal { C.is_goal c.now goal.now }
    requires each { MayJoinEach (C.calculus c.now) (C.is_goal c.now) goal.now rule (map (λ row. row.items) rows.items) }
    ensures { IfOk result (λ found. found.items ≡ map ((C.calculus c.now).join goal.now rule) (map (λ row. row.items) rows.items)) }
{
    if rows.is_empty() {
        return Ok(Vec::new(alloc));
    }
    let copy = c.copy_goal(alloc, goal)?;
    join_rows(c, alloc, copy, rule, rows)
}

/// Each of these as a row of its own.
fn rows_of<P: Drop>(alloc: Global, proofs: Vec<P>) -> Result<Vec<Vec<P>>, NoMemory>
    ensures { IfOk result (λ rows. map (λ row. row.items) rows.items ≡ map (λ proof. proof ∷ []) proofs.items) }
{
    let mut rows = Vec::new(alloc);
    for proof in proofs {
        let mut row = Vec::new(alloc);
        row.push(proof)?;
        rows.push(row)?;
    }
    Ok(rows)
}

/// Derivations of the goal that a trail leads to, joined along it.
pub fn join_trail<C: Calculus>(
    c: &C,
    alloc: Global,
    mut trail: Vec<(C::Goal, C::Rule)>,
    proofs: Vec<C::Proof>,
) -> Result<Vec<C::Proof>, NoMemory>
    requires { AreAlong (C.calculus c.now) (C.is_goal c.now) trail.items proofs.items }
    ensures { IfOk result (λ joined. joined.items ≡ map (along (C.calculus c.now) trail.items) proofs.items) }
{
    let mut joined = proofs;
    while let Some((goal, rule)) = trail.pop() {
        let rows = rows_of(alloc, joined)?;
        joined = join_rows(c, alloc, goal, rule, rows)?;
    }
    Ok(joined)
}
