//! Entailments as a calculus.

ghost use Rattle.std.specs.Prelude.{◌≡◌, map, IfOk};
ghost use Rattle.hs_steps.specs.Joined as joined;
ghost use Rattle.hs_calculus.specs.Search.{MayJoin};
ghost use Rattle.hs_choices.specs.Asked.{IsRefuted};
ghost use Rattle.hs_choices.specs.Stuck.{IsStuck, IsSpentAt};
ghost use Rattle.hs_search.specs.Entailments.{entailments, proof_by};
ghost use Rattle.hs_search.specs.Falling.{entailments_fall};
ghost use Rattle.hs_search.specs.Sleek as spec;
ghost use Rattle.hs_search.specs.Sleek.{IsSleekGoal};

use hs_calculus::{Calculus, Premises, Stop};
use hs_choices::{AskError, Spent, ask, choices, choices_have_conditions, choices_use_up, stuck};
use hs_erule::{Proof, residue, subgoals};
use hs_goal::{ERule, Goal, Limits, Obligation};
use hs_heap::{Defs, Formula};
use hs_pure::NoMemory;
use hs_rules::subgoals_are_well_formed;
use hs_sides::RuleError;
use hs_steps::{join, residue_shown};
use sqlite_items::Items;
use std::alloc::Global;

/// Entailments over definitions, searched within limits.
#[derive(Clone, Copy)]
pub struct Sleek<'a> {
    pub defs: &'a Defs,
    pub limits: Limits,
}

// What stops the search where a question cannot be answered.
fn stop_of(error: AskError) -> Stop<Spent>
    ensures { result ≡ spec.stop_of error }
{
    match error {
        AskError::Spent(spent) => Stop::Spent(spent),
        AskError::Memory => Stop::Memory,
    }
}

// The goals, moved.
fn moved(alloc: Global, mut goals: Items<Goal>) -> Result<Vec<Goal>, NoMemory>
    ensures { IfOk result (λ all. all.items ≡ goals) }
{
    let mut all = Vec::new(alloc);
    while let Some(goal) = goals.pop() {
        all.push(goal)?;
    }
    all.reverse();
    Ok(all)
}

// Copies of the residues that the parts show.
fn residues(alloc: Global, parts: &[Proof]) -> Result<Items<Formula>, NoMemory>
    ensures { IfOk result (λ all. all ≡ map joined.residue_shown parts.now) }
{
    let mut all = Items::new(alloc);
    for part in parts {
        all.push(residue_shown(alloc, part)?)?;
    }
    Ok(all)
}

impl<'a> Calculus for Sleek<'a> {
    type Goal = Goal;

    type Rule = ERule;

    type Proof = Proof;

    type Question = Spent;

    type Obligation = Obligation;

    ghost calculus = { λ s. entailments s.defs.now s.limits.level };

    ghost is_goal = { λ s g. IsSleekGoal s.defs.now s.limits g };

    ghost is_spent = { λ s g q. IsSpentAt s.defs.now s.limits.level s.limits.atoms g q };

    ghost is_stuck = { λ s g o. IsStuck g o };

    ghost is_refuted = { λ s g rule o. IsRefuted s.defs.now g rule o };

    ghost falls = { λ s. entailments_fall s.defs.now s.limits.level };

    fn choices(&self, alloc: Global, goal: &Goal) -> Result<Vec<ERule>, Stop<Spent>> {
        match choices(alloc, self.defs, goal, self.limits.level, self.limits.atoms) {
            Ok(rules) => Ok(rules),
            Err(error) => Err(stop_of(error)),
        }
    }

    fn is_paid(&self, rule: &ERule) -> bool {
        matches!(
            rule,
            ERule::Unfold(_) | ERule::Fold(_, _) | ERule::Lemma(_, _)
        )
    }

    fn stuck(&self, alloc: Global, goal: &Goal) -> Result<Obligation, NoMemory> {
        stuck(alloc, goal)
    }

    fn premises(
        &self,
        alloc: Global,
        goal: &Goal,
        rule: &ERule,
    ) -> Result<Premises<Goal, Obligation>, Stop<Spent>> {
        choices_have_conditions();
        choices_use_up();
        subgoals_are_well_formed();
        let goals = match subgoals(alloc, self.defs, goal, rule) {
            Ok(goals) => goals,
            Err(RuleError::NotApplicable) => return Err(Stop::Spent(Spent::Numbers)),
            Err(RuleError::Memory) => return Err(Stop::Memory),
        };
        match ask(alloc, self.defs, goal, rule, self.limits.atoms) {
            Ok(None) => Ok(Premises::Goals(moved(alloc, goals)?)),
            Ok(Some(obligation)) => Ok(Premises::Refuted(obligation)),
            Err(error) => Err(stop_of(error)),
        }
    }

    fn join(
        &self,
        alloc: Global,
        goal: Goal,
        rule: ERule,
        parts: Vec<Proof>,
    ) -> Result<Proof, NoMemory>
        requires { MayJoin (entailments self.now.defs.now self.now.limits.level) (IsSleekGoal self.now.defs.now self.now.limits) goal rule parts.items }
        ensures { IfOk result (λ proof. proof ≡ proof_by goal rule parts.items) }
    {
        choices_have_conditions();
        let rests = residues(alloc, &parts)?;
        let shown = residue(alloc, &goal, &rule, rests.as_slice())?;
        join(alloc, goal, rule, shown, parts)
    }

    fn copy_goal(&self, alloc: Global, goal: &Goal) -> Result<Goal, NoMemory> {
        goal.copy(alloc)
    }

    fn copy_rule(&self, alloc: Global, rule: &ERule) -> Result<ERule, NoMemory> {
        rule.copy(alloc)
    }

    fn copy(&self, alloc: Global, proof: &Proof) -> Result<Proof, NoMemory> {
        proof.copy(alloc)
    }
}
