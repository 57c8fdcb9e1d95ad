//! The parts of a side, and what is told of it.

ghost use Rattle.std.specs.Prelude.{◌≡◌, ◌++◌, ◌∷◌, [], IfOk, OnOk};
ghost use Rattle.hs_heap.specs.Meaning.{is_in};
ghost use Rattle.hs_goal.specs.Classes.{the_case};
ghost use Rattle.hs_choices.specs.Tests.{has_one_case, binds};

use hs_goal::ERule;
use hs_heap::{Atom, Formula};
use hs_pure::{NoMemory, Pure, Var};
use std::alloc::Global;

fn bound_of(side: &Formula) -> &[Var]
    ensures { result.now ≡ (the_case side.now).bound }
{
    match side.cases.as_slice() {
        [case, ..] => case.bound.as_slice(),
        [] => &[],
    }
}

pub fn atoms_of(side: &Formula) -> &[Atom]
    ensures { result.now ≡ (the_case side.now).atoms }
{
    match side.cases.as_slice() {
        [case, ..] => case.atoms.as_slice(),
        [] => &[],
    }
}

pub fn pure_of(side: &Formula) -> &[Pure]
    ensures { result.now ≡ (the_case side.now).pure }
{
    match side.cases.as_slice() {
        [case, ..] => case.pure.as_slice(),
        [] => &[],
    }
}

/// Whether the side is one disjunct.
pub fn has_one_case(side: &Formula) -> bool
    ensures { result ≡ has_one_case side.now }
{
    side.cases.len() == 1
}

/// Whether its disjunct binds variables.
pub fn binds(side: &Formula) -> bool
    ensures { result ≡ binds side.now }
{
    match bound_of(side) {
        [] => false,
        [_, ..] => true,
    }
}

pub fn is_listed(vs: &[Var], v: Var) -> bool
    ensures { result ≡ is_in v vs.now }
{
    for w in vs {
        if v == *w {
            return true;
        }
    }
    false
}

/// A list of the rule alone.
pub fn alone(alloc: Global, rule: ERule) -> Result<Vec<ERule>, NoMemory>
    ensures { IfOk result (λ all. all.items ≡ rule ∷ []) }
{
    let mut all = Vec::new(alloc);
    push(&mut all, rule)?;
    Ok(all)
}

pub fn push(all: &mut Vec<ERule>, rule: ERule) -> Result<(), NoMemory>
    ensures { OnOk result (all.new.items ≡ all.old.items ++ rule ∷ []) }
{
    all.push(rule)?;
    Ok(())
}
