//! The match of a right atom with a left one.

ghost use Rattle.std.specs.Prelude.{◌≡◌, ◌++◌, ◌∷◌, [], IfOk, OnOk};
ghost use Rattle.hs_heap.specs.Meaning.{is_in};
ghost use Rattle.hs_goal.specs.Classes.{the_case};
ghost use Rattle.hs_rules.specs.Conditions.{CanMatch};
ghost use Rattle.hs_rules.specs.Parts.{IsPlace, without, plain, argument_equation, equations};
ghost use Rattle.hs_rules.specs.Subgoals.{matched};
ghost use Rattle.hs_sides.specs.Answers.{IsGiven};

use crate::parts::{atoms_in_place, plain, push_conjuncts};
use hs_goal::{Goal, classes};
use hs_heap::{Atom, Disjunct, Formula};
use hs_pure::{Bag, Lin, NoMemory, Pure, Var};
use hs_sides::{RuleError, atom_at, copy_atoms, simple_case};
use sqlite_items::Items;
use std::alloc::Global;

/// The subgoal of a match of a right atom with a left atom, by place from 1: the left atom is used up, the right one
/// is gone, and the equations of their arguments come first on the right side. `NotApplicable` comes exactly where
/// the two do not match.
pub fn match_atoms(alloc: Global, goal: &Goal, r: u32, l: u32) -> Result<Goal, RuleError>
    ensures exact { IsGiven (CanMatch goal.now r l) (matched goal.now r l) result }
{
    let Some(left) = simple_case(&goal.left) else {
        return Err(RuleError::NotApplicable);
    };
    let Some(right) = simple_case(&goal.right) else {
        return Err(RuleError::NotApplicable);
    };
    let Some(right_atom) = atom_at(right.atoms.as_slice(), r) else {
        return Err(RuleError::NotApplicable);
    };
    let Some(left_atom) = atom_at(left.atoms.as_slice(), l) else {
        return Err(RuleError::NotApplicable);
    };
    let classes = classes(alloc, goal)?;
    if right_atom.of != left_atom.of
        || is_listed(goal.opens.as_slice(), right_atom.root)
        || !classes.same(right_atom.root, left_atom.root)
    {
        return Err(RuleError::NotApplicable);
    }
    Ok(use_up(alloc, goal, left, right, r, l)?)
}

// The goal after the match.
fn use_up(
    alloc: Global,
    goal: &Goal,
    left: &Disjunct,
    right: &Disjunct,
    r: u32,
    l: u32,
) -> Result<Goal, NoMemory>
    requires left { left.now ≡ the_case goal.now.left }
    requires right { right.now ≡ the_case goal.now.right }
    requires right_place { IsPlace r right.now.atoms }
    requires left_place { IsPlace l left.now.atoms }
    ensures { IfOk result (λ sub. sub ≡ matched goal.now r l) }
{
    let right_atom = &right.atoms.as_slice()[r as usize - 1];
    let left_atom = &left.atoms.as_slice()[l as usize - 1];
    let eqs = equations(alloc, right_atom.args.as_slice(), left_atom.args.as_slice())?;
    Ok(Goal {
        used: with_atom(alloc, goal.used.as_slice(), left_atom)?,
        left: without_atom(alloc, left, l, Items::new(alloc))?,
        opens: Items::from_slice(alloc, goal.opens.as_slice())?,
        right: without_atom(alloc, right, r, eqs)?,
        next: goal.next,
        looked: true,
    })
}

fn with_atom(alloc: Global, atoms: &[Atom], atom: &Atom) -> Result<Items<Atom>, NoMemory>
    ensures { IfOk result (λ all. all ≡ atoms.now ++ atom.now ∷ []) }
{
    let mut all = copy_atoms(alloc, atoms)?;
    all.push(atom.copy(alloc)?)?;
    Ok(all)
}

// A side without an atom, and with more conjuncts before its own.
fn without_atom(
    alloc: Global,
    side: &Disjunct,
    n: u32,
    mut pure: Items<Pure>,
) -> Result<Formula, NoMemory>
    requires { IsPlace n side.now.atoms }
    ensures { IfOk result (λ f. f ≡ plain (without n side.now.atoms) (pure ++ side.now.pure)) }
{
    let atoms = atoms_in_place(alloc, n, &[], side.atoms.as_slice())?;
    push_conjuncts(alloc, &mut pure, side.pure.as_slice())?;
    plain(alloc, atoms, pure)
}

fn equations(alloc: Global, vs: &[Var], ws: &[Var]) -> Result<Items<Pure>, NoMemory>
    ensures { IfOk result (λ ps. ps ≡ equations vs.now ws.now) }
{
    let mut all = Items::new(alloc);
    push_equations(alloc, &mut all, vs, ws)?;
    Ok(all)
}

// Adds the equation of each of the first variables with its partner.
fn push_equations(
    alloc: Global,
    all: &mut Items<Pure>,
    vs: &[Var],
    ws: &[Var],
) -> Result<(), NoMemory>
    ensures { OnOk result (all.new ≡ all.old ++ equations vs.now ws.now) }
{
    match vs {
        [] => Ok(()),
        [v, vs @ ..] => match ws {
            [] => Ok(()),
            [w, ws @ ..] => {
                all.push(argument_equation(alloc, *v, *w)?)?;
                push_equations(alloc, all, vs, ws)
            }
        },
    }
}

fn argument_equation(alloc: Global, v: Var, w: Var) -> Result<Pure, NoMemory>
    ensures { IfOk result (λ p. p ≡ argument_equation v w) }
{
    if v.bag {
        return Ok(Pure::BagEq(Bag::Name(v), Bag::Name(w)));
    }
    Ok(Pure::Eq(Lin::variable(alloc, v)?, Lin::variable(alloc, w)?))
}

fn is_listed(vs: &[Var], v: Var) -> bool
    ensures { result ≡ is_in v vs.now }
{
    for w in vs {
        if v == *w {
            return true;
        }
    }
    false
}
