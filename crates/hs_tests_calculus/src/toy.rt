//! A calculus of numbers that are taken down to 0 by twos; 1 has no choice.
ghost use Rattle.std.specs.Prelude.{◌≡◌, ⊤, IfOk};
ghost use Rattle.hs_calculus.specs.Search.{MayJoin};
ghost use Rattle.hs_tests_calculus.specs.Toy.{toy, falls, choices_at};

use hs_calculus::{Calculus, Premises, Stop};
use hs_text::NoMemory;
use sqlite_items::Items;
use std::alloc::Global;

#[derive(Clone, Copy, Debug)]
pub enum Rule {
    End,
    Down,
    Twice,
}

pub struct Toy;

fn choices_of(alloc: Global, goal: u32) -> Result<Vec<Rule>, NoMemory>
    ensures { IfOk result (λ rules. rules.items ≡ choices_at goal) }
{
    match goal {
        0 => Ok(vec![in alloc; Rule::End]?),
        1 => Ok(Vec::new(alloc)),
        2 => Ok(vec![in alloc; Rule::Down]?),
        3 | 4 => Ok(vec![in alloc; Rule::Down, Rule::Twice]?),
        _ => Ok(vec![in alloc; Rule::Down]?),
    }
}

impl Calculus for Toy {
    type Goal = u32;

    type Rule = Rule;

    type Proof = Items<Rule>;

    type Question = u32;

    type Obligation = u32;

    ghost calculus = { λ _. toy };

    ghost is_goal = { λ _ _. ⊤ };

    ghost is_spent = { λ _ _ _. ⊥ };

    ghost is_stuck = { λ _ goal o. o ≡ goal };

    ghost is_refuted = { λ _ _ _ _. ⊥ };

    ghost falls = { λ _. falls };

    fn choices(&self, alloc: Global, goal: &u32) -> Result<Vec<Rule>, Stop<u32>> {
        Ok(choices_of(alloc, *goal)?)
    }

    fn is_paid(&self, rule: &Rule) -> bool {
        matches!(rule, Rule::Twice)
    }

    fn stuck(&self, _alloc: Global, goal: &u32) -> Result<u32, NoMemory> {
        Ok(*goal)
    }

    fn premises(
        &self,
        alloc: Global,
        goal: &u32,
        rule: &Rule,
    ) -> Result<Premises<u32, u32>, Stop<u32>> {
        let less = goal.saturating_sub(2);
        match rule {
            Rule::End => Ok(Premises::Goals(Vec::new(alloc))),
            Rule::Down => Ok(Premises::Goals(vec![in alloc; less]?)),
            Rule::Twice => Ok(Premises::Goals(vec![in alloc; less, less]?)),
        }
    }

    fn join(
        &self,
        alloc: Global,
        goal: u32,
        rule: Rule,
        parts: Vec<Items<Rule>>,
    ) -> Result<Items<Rule>, NoMemory>
        requires { MayJoin toy (λ _. ⊤) goal rule parts.items }
        ensures { IfOk result (λ proof. proof ≡ toy.join goal rule parts.items) }
    {
        let _ = goal;
        let mut rules = Items::new(alloc);
        rules.push(rule)?;
        for part in parts {
            rules.append(part)?;
        }
        Ok(rules)
    }

    fn copy_goal(&self, _alloc: Global, goal: &u32) -> Result<u32, NoMemory> {
        Ok(*goal)
    }

    fn copy_rule(&self, _alloc: Global, rule: &Rule) -> Result<Rule, NoMemory> {
        Ok(*rule)
    }

    fn copy(&self, alloc: Global, proof: &Items<Rule>) -> Result<Items<Rule>, NoMemory> {
        Ok(Items::from_slice(alloc, proof.as_slice())?)
    }
}
