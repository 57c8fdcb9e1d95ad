//! The body of a predicate, or the right side of a lemma, in the place of an atom.

ghost use Rattle.std.specs.Prelude.{◌≡◌, false, true, map, Some, None, IfOk, MatchOption};
ghost use Rattle.hs_heap.specs.Instance.{lemma_at};
ghost use Rattle.hs_heap.specs.Sound.{IsSound};
ghost use Rattle.hs_goal.specs.Shape.{GoalFits};
ghost use Rattle.hs_rules.specs.Conditions.{CanUnfold, CanFold, CanUseLemma};
ghost use Rattle.hs_rules.specs.Parts.{IsPlace, only, replaced};
ghost use Rattle.hs_atom_rules.specs.Answers.{IsGivenInRoom, unfolded, by_lemma, folded};

use crate::parts::replaced;
use hs_goal::Goal;
use hs_heap::{Defs, Disjunct, Formula, Lemma, Of, instantiate, instantiate_lemma};
use hs_pure::NoMemory;
use hs_sides::{RuleError, atom_at, case_at, only, simple_case, with_left, with_right};
use sqlite_items::Items;
use std::alloc::Global;

// Greater numbers are refused.
const MOST: u32 = 1_073_741_824;

/// The subgoal of a left atom of a predicate, by place from 1, that is unfolded: each case of the predicate's body
/// stands in its place, with new numbers for what it binds. `NotApplicable` comes exactly where there is no such
/// atom on a simple left side, or the new numbers would pass 2^30.
pub fn unfold(alloc: Global, defs: &Defs, goal: &Goal, l: u32) -> Result<Goal, RuleError>
    requires sound { IsSound defs.now }
    requires fits { GoalFits defs.now goal.now }
    ensures exact { IsGivenInRoom (CanUnfold goal.now l) (unfolded defs.now goal.now l) result }
{
    let Some(side) = simple_case(&goal.left) else {
        return Err(RuleError::NotApplicable);
    };
    let Some(atom) = atom_at(side.atoms.as_slice(), l) else {
        return Err(RuleError::NotApplicable);
    };
    let Of::Pred(pred) = atom.of else {
        return Err(RuleError::NotApplicable);
    };
    let (body, next) = instantiate(
        alloc,
        defs,
        pred,
        atom.root,
        atom.args.as_slice(),
        goal.next,
    )?;
    if next > MOST {
        return Err(RuleError::NotApplicable);
    }
    Ok(put_left(alloc, goal, side, l, &body, next)?)
}

/// The subgoal of a lemma, by number from 1, that is used at a left atom of its predicate, by place from 1: its
/// right side stands in the place of the atom, with new numbers for what it binds. `NotApplicable` comes exactly
/// where there is no such lemma or no such atom on a simple left side, or the new numbers would pass 2^30.
pub fn use_lemma(alloc: Global, defs: &Defs, goal: &Goal, j: u32, l: u32) -> Result<Goal, RuleError>
    requires sound { IsSound defs.now }
    requires fits { GoalFits defs.now goal.now }
    ensures exact { IsGivenInRoom (CanUseLemma defs.now goal.now j l) (by_lemma defs.now goal.now j l) result }
{
    let Some(side) = simple_case(&goal.left) else {
        return Err(RuleError::NotApplicable);
    };
    let Some(lemma) = lemma_at(defs, j) else {
        return Err(RuleError::NotApplicable);
    };
    let Some(atom) = atom_at(side.atoms.as_slice(), l) else {
        return Err(RuleError::NotApplicable);
    };
    if atom.of != Of::Pred(lemma.pred) {
        return Err(RuleError::NotApplicable);
    }
    let (body, next) = instantiate_lemma(
        alloc,
        defs,
        j,
        atom.root,
        atom.args.as_slice(),
        goal.next,
    )?;
    if next > MOST {
        return Err(RuleError::NotApplicable);
    }
    Ok(put_left(alloc, goal, side, l, &body, next)?)
}

/// The subgoal of a right atom of a predicate, by place from 1, that is folded into a case of the predicate's body,
/// by place from 1: the case stands in its place, with new numbers for what it binds. `NotApplicable` comes exactly
/// where there is no such atom on a simple right side or no such case, or the new numbers would pass 2^30.
pub fn fold(alloc: Global, defs: &Defs, goal: &Goal, r: u32, i: u32) -> Result<Goal, RuleError>
    requires sound { IsSound defs.now }
    requires fits { GoalFits defs.now goal.now }
    ensures exact { IsGivenInRoom (CanFold defs.now goal.now r i) (folded defs.now goal.now r i) result }
{
    let Some(side) = simple_case(&goal.right) else {
        return Err(RuleError::NotApplicable);
    };
    let Some(atom) = atom_at(side.atoms.as_slice(), r) else {
        return Err(RuleError::NotApplicable);
    };
    let Of::Pred(pred) = atom.of else {
        return Err(RuleError::NotApplicable);
    };
    let (body, next) = instantiate(
        alloc,
        defs,
        pred,
        atom.root,
        atom.args.as_slice(),
        goal.next,
    )?;
    let Some(case) = case_at(body.cases.as_slice(), i) else {
        return Err(RuleError::NotApplicable);
    };
    if next > MOST {
        return Err(RuleError::NotApplicable);
    }
    Ok(put_right(alloc, goal, side, r, case, next)?)
}

// The lemma of a number from 1.
fn lemma_at(defs: &Defs, n: u32) -> Option<&Lemma>
    ensures { MatchOption result (lemma_at defs.now n ≡ None) (λ l. lemma_at defs.now n ≡ Some l.now) }
{
    if n == 0 {
        return None;
    }
    defs.lemmas.as_slice().get(n as usize - 1)
}

// The goal with each case of a body in the place of an atom of its left side.
fn put_left(
    alloc: Global,
    goal: &Goal,
    side: &Disjunct,
    l: u32,
    body: &Formula,
    next: u32,
) -> Result<Goal, NoMemory>
    requires { IsPlace l side.now.atoms }
    ensures { IfOk result (λ sub. sub ≡ record goal.now { left = record { cases = map (replaced l side.now) body.now.cases }; next = next; looked = false }) }
{
    let mut cases = Items::new(alloc);
    for case in body.cases.as_slice() {
        cases.push(replaced(alloc, l, side, case)?)?;
    }
    with_left(alloc, goal, Formula { cases }, next)
}

// The goal with a case of a body in the place of an atom of its right side.
fn put_right(
    alloc: Global,
    goal: &Goal,
    side: &Disjunct,
    r: u32,
    case: &Disjunct,
    next: u32,
) -> Result<Goal, NoMemory>
    requires { IsPlace r side.now.atoms }
    ensures { IfOk result (λ sub. sub ≡ record goal.now { right = only (replaced r side.now case.now); next = next; looked = true }) }
{
    let opens = Items::from_slice(alloc, goal.opens.as_slice())?;
    let right = only(alloc, replaced(alloc, r, side, case)?)?;
    with_right(alloc, goal, opens, right, next)
}
