//! Equations that are solved one after another.

ghost use Rattle.std.specs.Prelude.{◌≡◌, ◌≤◌, ◌++◌, [], ◌∷◌, true, length, Option, None, Some, IfOk};
ghost use Rattle.hs_unit.specs.Sides.{forms};
ghost use Rattle.hs_unit.specs.Reduction.{is_small, all_small, is_unit, BeginsProper, step_for, step, steps, reduced};

use crate::sides::Kind;
use crate::small::{all_small, are_small};
use crate::solution::{put, put_right, solution, unit_term};
use hs_pure::{Lin, NoMemory, Var};
use sqlite_items::Items;
use std::alloc::Global;

/// The forms of a question in the course of its reduction.
#[derive(Debug, Drop)]
pub struct Reduction {
    /// The terms that the forms taken were solved for; none for a form without variables.
    pub pivots: Items<Option<(Var, i128)>>,
    /// The left forms that were taken.
    pub taken: Items<Lin>,
    /// The left forms that are to come.
    pub later: Items<Lin>,
    /// The comparisons of the right side.
    pub right: Items<(Kind, Lin)>,
}

fn copies(alloc: Global, forms: &[Lin]) -> Result<Items<Lin>, NoMemory>
    ensures { IfOk result (λ all. all ≡ forms.now) }
{
    let mut all = Items::new(alloc);
    for a in forms {
        all.push(a.copy(alloc)?)?;
    }
    Ok(all)
}

fn copied_right(alloc: Global, right: &[(Kind, Lin)]) -> Result<Items<(Kind, Lin)>, NoMemory>
    ensures { IfOk result (λ all. all ≡ right.now) }
{
    let mut all = Items::new(alloc);
    for c in right {
        all.push((c.0, c.1.copy(alloc)?))?;
    }
    Ok(all)
}

// The form is solved for the variable of the term, if the other forms stay small.
fn solved_for(
    alloc: Global,
    r: &Reduction,
    f: &Lin,
    later: &[Lin],
    t: (Var, i128),
) -> Result<Option<Reduction>, NoMemory>
    requires unit { is_unit t.1 ≡ true }
    requires small { is_small f.now ≡ true }
    ensures { IfOk result (λ o. o ≡ step_for r.now f.now later.now (Some t)) }
{
    let Some(u) = solution(alloc, f, t)? else {
        return Ok(None);
    };
    let Some(mut taken) = put(alloc, t.0, &u, r.taken.as_slice())? else {
        return Ok(None);
    };
    let Some(later) = put(alloc, t.0, &u, later)? else {
        return Ok(None);
    };
    let Some(right) = put_right(alloc, t.0, &u, r.right.as_slice())? else {
        return Ok(None);
    };
    taken.push(f.copy(alloc)?)?;
    let mut pivots = Items::from_slice(alloc, r.pivots.as_slice())?;
    pivots.push(Some(t))?;
    Ok(Some(Reduction {
        pivots,
        taken,
        later,
        right,
    }))
}

// The form is taken. It has variables.
fn step(alloc: Global, r: &Reduction, f: &Lin, later: &[Lin]) -> Result<Option<Reduction>, NoMemory>
    requires proper { ¬ (f.now.terms ≡ []) }
    requires small { is_small f.now ≡ true }
    ensures { IfOk result (λ o. o ≡ step r.now f.now later.now f.now.terms) }
{
    let Some(t) = unit_term(f.terms.as_slice()) else {
        return Ok(None);
    };
    solved_for(alloc, r, f, later, t)
}

// The forms without variables that come next are passed over, all at once.
fn without_constants(alloc: Global, r: &Reduction) -> Result<Reduction, NoMemory>
    requires small { all_small r.now.later ≡ true }
    ensures same { IfOk result (λ q. steps (length q.later) q q.later ≡ steps (length r.now.later) r.now r.now.later) }
    ensures small { IfOk result (λ q. all_small q.later ≡ true) }
    ensures fewer { IfOk result (λ q. length q.later ≤ length r.now.later) }
    ensures proper { IfOk result (λ q. BeginsProper q.later) }
{
    let mut pivots = Items::from_slice(alloc, r.pivots.as_slice())?;
    let mut taken = copies(alloc, r.taken.as_slice())?;
    let mut rest = r.later.as_slice();
    'passing: while let Some((f, later)) = rest.split_first() {
        if !f.terms.is_empty() {
            break;
        }
        pivots.push(None)?;
        taken.push(f.copy(alloc)?)?;
        rest = later;
    }
    Ok(Reduction {
        pivots,
        taken,
        later: copies(alloc, rest)?,
        right: copied_right(alloc, r.right.as_slice())?,
    })
}

// The reduction of the forms of a question, if it is there.
pub(crate) fn reduced(
    alloc: Global,
    left: Items<Lin>,
    right: Items<(Kind, Lin)>,
) -> Result<Option<Reduction>, NoMemory>
    ensures { IfOk result (λ o. o ≡ reduced left right) }
{
    if !all_small(left.as_slice()) || !are_small(right.as_slice()) {
        return Ok(None);
    }
    let mut r = Reduction {
        pivots: Items::new(alloc),
        taken: Items::new(alloc),
        later: left,
        right,
    };
    'reducing: while !r.later.is_empty() {
        r = without_constants(alloc, &r)?;
        let Some((f, later)) = r.later.as_slice().split_first() else {
            return Ok(Some(r));
        };
        let Some(next) = step(alloc, &r, f, later)? else {
            return Ok(None);
        };
        r = next;
    }
    Ok(Some(r))
}
