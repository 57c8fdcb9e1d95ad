//! What is tried at the right atoms.

ghost use Rattle.std.specs.Prelude.{◌≡◌, ◌++◌, IfOk, OnOk};
ghost use Rattle.std.specs.List.{list_any};
ghost use Rattle.hs_heap.specs.Instance.{body_of};
ghost use Rattle.hs_goal.specs.Classes.{IsSimple};
ghost use Rattle.hs_rules.specs.Parts.{left_atoms};
ghost use Rattle.hs_choices.specs.Tests.{HasClasses, is_pred, same_name, has_at_self, in_class};
ghost use Rattle.hs_choices.specs.Choices.{matches_it, may_show_it, leads_to, shows, may_hold, matches, unfolds, lemmas_at, lemma_steps, folds, by_atom, by_atoms};

use crate::parts::{atoms_of, push};
use crate::places::{first_known, place};
use hs_goal::{Classes, ERule, Goal, classes};
use hs_heap::{Atom, Defs, Disjunct, Lemma, Of};
use hs_pure::{NoMemory, Var};
use std::alloc::Global;

const SELF: Var = Var {
    number: 1,
    bag: false,
};

/// What is tried at the first right atom whose root is not open. The left side is simple.
#[tactic(auto, unfolding(crate::specs::Choices::by_atoms))]
pub fn by_atoms(alloc: Global, defs: &Defs, goal: &Goal) -> Result<Vec<ERule>, NoMemory>
    requires { IsSimple goal.now.left }
    ensures { IfOk result (λ all. all.items ≡ by_atoms defs.now goal.now) }
{
    match first_known(goal) {
        Some((i, atom)) => by_atom(alloc, defs, goal, place(i)?, atom),
        None => Ok(Vec::new(alloc)),
    }
}

// At a right atom, whose place is `r`.
fn by_atom(
    alloc: Global,
    defs: &Defs,
    goal: &Goal,
    r: u32,
    atom: &Atom,
) -> Result<Vec<ERule>, NoMemory>
    requires { IsSimple goal.now.left }
    ensures { IfOk result (λ all. all.items ≡ by_atom defs.now goal.now r atom.now) }
{
    let classes = left_classes(alloc, goal)?;
    let mut all = Vec::new(alloc);
    push_matches(goal, &classes, r, atom, &mut all)?;
    push_unfolds(goal, &classes, atom, &mut all)?;
    push_lemma_steps(defs, goal, &classes, atom, &mut all)?;
    push_folds(defs, goal, &classes, r, atom, &mut all)?;
    Ok(all)
}

fn left_classes(alloc: Global, goal: &Goal) -> Result<Classes, NoMemory>
    requires { IsSimple goal.now.left }
    ensures { IfOk result (HasClasses goal.now) }
{
    classes(alloc, goal)
}

fn in_class(goal: &Goal, classes: &Classes, a: &Atom, b: &Atom) -> bool
    requires { HasClasses goal.now classes.now }
    ensures { result ≡ in_class goal.now a.now b.now }
{
    classes.same(a.root, b.root)
}

// ---- names

fn is_pred(of: Of) -> bool
    ensures { result ≡ is_pred of }
{
    matches!(of, Of::Pred(_))
}

fn same_name(a: Of, b: Of) -> bool
    ensures { result ≡ same_name a b }
{
    match (a, b) {
        (Of::Node(m), Of::Node(n)) => m == n,
        (Of::Pred(m), Of::Pred(n)) => m == n,
        _ => false,
    }
}

fn has_at_self(name: Of, atoms: &[Atom]) -> bool
    ensures { result ≡ has_at_self name atoms.now }
{
    atoms
        .iter()
        .any(|a| SELF == a.root && same_name(name, a.of))
}

// ---- matches

#[tactic(auto, unfolding(crate::specs::Choices::matches_it))]
fn matches_it(goal: &Goal, classes: &Classes, right: &Atom, left: &Atom) -> bool
    requires { HasClasses goal.now classes.now }
    ensures { result ≡ matches_it goal.now right.now left.now }
{
    same_name(left.of, right.of) && in_class(goal, classes, left, right)
}

fn push_matches(
    goal: &Goal,
    classes: &Classes,
    r: u32,
    right: &Atom,
    all: &mut Vec<ERule>,
) -> Result<(), NoMemory>
    requires { HasClasses goal.now classes.now }
    ensures { OnOk result (all.new.items ≡ all.old.items ++ matches goal.now r right.now) }
{
    for (i, left) in atoms_of(&goal.left).iter().enumerate() {
        if matches_it(goal, classes, right, left) {
            push(all, ERule::Match(r, place(i)?))?;
        }
    }
    Ok(())
}

// ---- unfolds

#[tactic(auto, unfolding(crate::specs::Choices::may_show_it))]
fn may_show_it(goal: &Goal, classes: &Classes, right: &Atom, left: &Atom) -> bool
    requires { HasClasses goal.now classes.now }
    ensures { result ≡ may_show_it goal.now right.now left.now }
{
    is_pred(left.of) && !same_name(left.of, right.of) && in_class(goal, classes, left, right)
}

fn push_unfolds(
    goal: &Goal,
    classes: &Classes,
    right: &Atom,
    all: &mut Vec<ERule>,
) -> Result<(), NoMemory>
    requires { HasClasses goal.now classes.now }
    ensures { OnOk result (all.new.items ≡ all.old.items ++ unfolds goal.now right.now) }
{
    for (i, left) in atoms_of(&goal.left).iter().enumerate() {
        if may_show_it(goal, classes, right, left) {
            push(all, ERule::Unfold(place(i)?))?;
        }
    }
    Ok(())
}

// ---- lemma steps

#[tactic(auto, unfolding(crate::specs::Choices::leads_to))]
fn leads_to(from: Of, to: Of, lemma: &Lemma) -> bool
    ensures { result ≡ leads_to from to lemma.now }
{
    same_name(from, Of::Pred(lemma.pred)) && has_at_self(to, lemma.right.atoms.as_slice())
}

// At a left atom, whose place is `l`.
fn push_lemmas_at(
    defs: &Defs,
    right: &Atom,
    l: u32,
    left: &Atom,
    all: &mut Vec<ERule>,
) -> Result<(), NoMemory>
    ensures { OnOk result (all.new.items ≡ all.old.items ++ lemmas_at defs.now right.now l left.now) }
{
    for (j, lemma) in defs.lemmas.as_slice().iter().enumerate() {
        if leads_to(left.of, right.of, lemma) {
            push(all, ERule::Lemma(place(j)?, l))?;
        }
    }
    Ok(())
}

fn push_lemma_steps(
    defs: &Defs,
    goal: &Goal,
    classes: &Classes,
    right: &Atom,
    all: &mut Vec<ERule>,
) -> Result<(), NoMemory>
    requires { HasClasses goal.now classes.now }
    ensures { OnOk result (all.new.items ≡ all.old.items ++ lemma_steps defs.now goal.now right.now) }
{
    for (i, left) in atoms_of(&goal.left).iter().enumerate() {
        if !in_class(goal, classes, left, right) {
            continue;
        }
        push_lemmas_at(defs, right, place(i)?, left, all)?;
    }
    Ok(())
}

// ---- folds

#[tactic(auto, unfolding(crate::specs::Choices::shows))]
fn shows(goal: &Goal, classes: &Classes, right: &Atom, atoms: &[Atom], left: &Atom) -> bool
    requires { HasClasses goal.now classes.now }
    ensures { result ≡ shows goal.now right.now atoms.now left.now }
{
    !is_pred(left.of) && in_class(goal, classes, left, right) && has_at_self(left.of, atoms)
}

fn some_shows(goal: &Goal, classes: &Classes, right: &Atom, atoms: &[Atom]) -> bool
    requires { HasClasses goal.now classes.now }
    ensures { result ≡ list_any (shows goal.now right.now atoms.now) (left_atoms goal.now) }
{
    for left in atoms_of(&goal.left) {
        if shows(goal, classes, right, atoms, left) {
            return true;
        }
    }
    false
}

#[tactic(auto, unfolding(crate::specs::Choices::may_hold))]
fn may_hold(goal: &Goal, classes: &Classes, right: &Atom, case: &Disjunct) -> bool
    requires { HasClasses goal.now classes.now }
    ensures { result ≡ may_hold goal.now right.now case.now }
{
    match case.atoms.as_slice() {
        [] => true,
        atoms => some_shows(goal, classes, right, atoms),
    }
}

// The cases of a predicate; a data type has none.
fn cases_of(defs: &Defs, of: Of) -> &[Disjunct]
    ensures { result.now ≡ (body_of defs.now of).formula.cases }
{
    match of {
        Of::Pred(n) if n > 0 => match defs.preds.get(n as usize - 1) {
            Some(pred) => pred.body.cases.as_slice(),
            None => &[],
        },
        _ => &[],
    }
}

fn push_folds(
    defs: &Defs,
    goal: &Goal,
    classes: &Classes,
    r: u32,
    right: &Atom,
    all: &mut Vec<ERule>,
) -> Result<(), NoMemory>
    requires { HasClasses goal.now classes.now }
    ensures { OnOk result (all.new.items ≡ all.old.items ++ folds defs.now goal.now r right.now) }
{
    for (i, case) in cases_of(defs, right.of).iter().enumerate() {
        if may_hold(goal, classes, right, case) {
            push(all, ERule::Fold(r, place(i)?))?;
        }
    }
    Ok(())
}
