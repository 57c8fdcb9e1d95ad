//! Why nothing is tried at a goal.

ghost use Rattle.std.specs.Prelude.{◌≡◌, [], true, IfOk};
ghost use Rattle.std.specs.List.{list_any};
ghost use Rattle.hs_rules.specs.Parts.{atom_at, right_atoms, right_pure};
ghost use Rattle.hs_choices.specs.Tests.{is_mixed};
ghost use Rattle.hs_choices.specs.Stuck.{HasNoChoice, HasOpenBag, IsLeastOf, IsStuck, least_with, lesser};

use crate::parts::atoms_of;
use crate::places::{first_known, first_mixed};
use hs_goal::{Goal, Obligation};
use hs_heap::Atom;
use hs_pure::{NoMemory, Pure, Var};
use std::alloc::Global;

/// Why nothing is tried at a well-formed goal: no right atom has a root that is not open, the first that has one gives
/// nothing to try, or without right atoms a conjunct has both an open variable and a bag literal.
pub fn stuck(alloc: Global, goal: &Goal) -> Result<Obligation, NoMemory>
    requires { HasNoChoice goal.now }
    ensures { IfOk result (IsStuck goal.now) }
{
    match atoms_of(&goal.right) {
        [] => Ok(Obligation::OpenBag(open_bag(goal))),
        [first, ..] => at_atoms(alloc, goal, first),
    }
}

fn at_atoms(alloc: Global, goal: &Goal, first: &Atom) -> Result<Obligation, NoMemory>
    requires some { ¬ (right_atoms goal.now ≡ []) }
    requires first { first.now ≡ atom_at 1 (right_atoms goal.now) }
    ensures { IfOk result (IsStuck goal.now) }
{
    match first_known(goal) {
        Some((_, atom)) => Ok(Obligation::NoChoice(atom.copy(alloc)?)),
        None => Ok(Obligation::OpenRoot(first.root)),
    }
}

// The least open variable of the first conjunct that also has a bag literal.
fn open_bag(goal: &Goal) -> Var
    requires no_atoms { right_atoms goal.now ≡ [] }
    requires mixed { list_any (is_mixed goal.now.opens) (right_pure goal.now) ≡ true }
    ensures { HasOpenBag goal.now result }
{
    let Some((_, conjunct)) = first_mixed(goal) else {
        unreachable!()
    };
    let Some(v) = least_open(goal.opens.as_slice(), conjunct) else {
        unreachable!()
    };
    v
}

// The open variable of the least number that occurs free.
fn least_open(opens: &[Var], p: &Pure) -> Option<Var>
    ensures { IsLeastOf opens.now p.now result }
{
    let mut least: Option<Var> = None;
    for v in opens {
        least = least_with(p, least, *v);
    }
    least
}

fn least_with(p: &Pure, least: Option<Var>, v: Var) -> Option<Var>
    ensures { result ≡ least_with p.now least v }
{
    if !p.has(v) {
        return least;
    }
    Some(lesser(least, v))
}

// The one of the lesser number.
fn lesser(least: Option<Var>, v: Var) -> Var
    ensures { result ≡ lesser least v }
{
    match least {
        Some(w) if w.number <= v.number => w,
        _ => v,
    }
}
