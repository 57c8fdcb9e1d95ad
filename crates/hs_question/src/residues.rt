//! The residue of a goal from those of its subgoals.

ghost use Rattle.std.specs.Prelude.{◌≡◌, ◌+◌, ◌≤◌, ◌^◌, ◌++◌, [], IfOk, OnOk, length, map};
ghost use Rattle.hs_goal.specs.Classes.{the_case};
ghost use Rattle.hs_rules.specs.Parts.{to_fresh, fresh_variables, plain, left_atoms, left_pure, right_pure};
ghost use Rattle.hs_rules.specs.Residues.{joined, binding, all_binding, the_one, residue_of};
ghost use Rattle.hs_question.specs.Steps.{HasResidue};

use crate::parts::{atoms_of, bound_of, pure_of, push_conjuncts};
use hs_goal::{ERule, Goal};
use hs_heap::{Disjunct, Formula};
use hs_pure::{NoMemory, Var};
use hs_sides::{copy_atoms, only};
use sqlite_items::Items;
use std::alloc::Global;

/// The residue of a goal by a rule that applies to it, from the residues of its subgoals in order. The goal is well
/// formed for some sound definitions, and there is one residue per subgoal.
#[tactic(auto, using(crate::proofs::Rows::left_room, crate::proofs::Rows::right_room))]
pub fn residue(
    alloc: Global,
    goal: &Goal,
    rule: &ERule,
    premises: &[Formula],
) -> Result<Formula, NoMemory>
    requires step { HasResidue goal.now rule.now premises.now }
    ensures same { IfOk result (λ f. f ≡ residue_of goal.now rule.now premises.now) }
{
    match rule {
        ERule::LeftOr => joined(alloc, premises),
        ERule::LeftExists => bound_again(alloc, &goal.left, goal.next, premises),
        ERule::False(_) => Ok(no_case(alloc)),
        ERule::Split(_) => joined(alloc, premises),
        ERule::RightOr(_) => the_one(alloc, premises),
        ERule::RightExists => bound_again(alloc, &goal.right, goal.next, premises),
        ERule::Instantiate(_) => the_one(alloc, premises),
        ERule::Match(_, _) => the_one(alloc, premises),
        ERule::Unfold(_) => the_one(alloc, premises),
        ERule::Fold(_, _) => the_one(alloc, premises),
        ERule::Empty(_) => left_over(alloc, goal),
        ERule::Lemma(_, _) => the_one(alloc, premises),
    }
}

fn no_case(alloc: Global) -> Formula
    ensures { result.cases ≡ [] }
{
    Formula {
        cases: Items::new(alloc),
    }
}

fn the_one(alloc: Global, premises: &[Formula]) -> Result<Formula, NoMemory>
    ensures { IfOk result (λ f. f ≡ the_one premises.now) }
{
    match premises {
        [premise, ..] => premise.copy(alloc),
        [] => Ok(no_case(alloc)),
    }
}

fn joined(alloc: Global, premises: &[Formula]) -> Result<Formula, NoMemory>
    ensures { IfOk result (λ f. f ≡ joined premises.now) }
{
    let mut cases = Items::new(alloc);
    for premise in premises {
        push_cases(alloc, &mut cases, premise.cases.as_slice())?;
    }
    Ok(Formula { cases })
}

fn push_cases(alloc: Global, all: &mut Items<Disjunct>, cases: &[Disjunct]) -> Result<(), NoMemory>
    ensures { OnOk result (all.new ≡ all.old ++ cases.now) }
{
    for case in cases {
        all.push(case.copy(alloc)?)?;
    }
    Ok(())
}

// The left atoms, and what both sides say of numbers and bags.
fn left_over(alloc: Global, goal: &Goal) -> Result<Formula, NoMemory>
    ensures { IfOk result (λ f. f ≡ plain (left_atoms goal.now) (left_pure goal.now ++ right_pure goal.now)) }
{
    let atoms = copy_atoms(alloc, atoms_of(&goal.left))?;
    let mut pure = Items::new(alloc);
    push_conjuncts(alloc, &mut pure, pure_of(&goal.left))?;
    push_conjuncts(alloc, &mut pure, pure_of(&goal.right))?;
    let bound = Items::new(alloc);
    only(alloc, Disjunct { bound, atoms, pure })
}

// The one premise, whose disjuncts bind the variables that stand for what the side binds.
fn bound_again(
    alloc: Global,
    side: &Formula,
    next: u32,
    premises: &[Formula],
) -> Result<Formula, NoMemory>
    requires room { next + length (the_case side.now).bound ≤ 2 ^ 30 }
    ensures { IfOk result (λ f. f ≡ all_binding (fresh_variables (the_case side.now) next) (the_one premises.now)) }
{
    let variables = fresh_variables(alloc, bound_of(side), next)?;
    all_binding(alloc, variables.as_slice(), first_cases(premises))
}

fn first_cases(premises: &[Formula]) -> &[Disjunct]
    ensures { result.now ≡ (the_one premises.now).cases }
{
    match premises {
        [premise, ..] => premise.cases.as_slice(),
        [] => &[],
    }
}

fn all_binding(alloc: Global, variables: &[Var], cases: &[Disjunct]) -> Result<Formula, NoMemory>
    ensures { IfOk result (λ f. f ≡ all_binding variables.now (record { cases = cases.now })) }
{
    let mut all = Items::new(alloc);
    for case in cases {
        all.push(binding(alloc, variables, case)?)?;
    }
    Ok(Formula { cases: all })
}

fn binding(alloc: Global, variables: &[Var], case: &Disjunct) -> Result<Disjunct, NoMemory>
    ensures { IfOk result (λ d. d ≡ binding variables.now case.now) }
{
    let Disjunct { bound, atoms, pure } = case.copy(alloc)?;
    let mut all = Items::from_slice(alloc, variables)?;
    all.append(bound)?;
    Ok(Disjunct {
        bound: all,
        atoms,
        pure,
    })
}

fn fresh_variables(alloc: Global, bound: &[Var], next: u32) -> Result<Items<Var>, NoMemory>
    requires room { next + length bound.now ≤ 2 ^ 30 }
    ensures { IfOk result (λ vs. vs ≡ map (to_fresh bound.now next) bound.now) }
{
    let mut all = Items::new(alloc);
    for v in bound {
        all.push(to_fresh(bound, next, *v))?;
    }
    Ok(all)
}

// The number from `next` on that has the place of the variable.
fn to_fresh(bound: &[Var], next: u32, v: Var) -> Var
    requires room { next + length bound.now ≤ 2 ^ 30 }
    ensures { result ≡ to_fresh bound.now next v }
{
    match bound {
        [] => v,
        [b, rest @ ..] => {
            if *b == v {
                Var {
                    number: next,
                    bag: v.bag,
                }
            } else {
                to_fresh(rest, next + 1, v)
            }
        }
    }
}
