//! Nodes with entailments.

ghost use Rattle.std.specs.Prelude.{◌≤◌, ◌^◌, IfOk};
ghost use Rattle.hs_heap.specs.Sound.{IsSound};
ghost use Rattle.hs_node.specs.declared.judgement.Judgement.TheVariants.{Entails};
ghost use Rattle.hs_node.specs.declared.judgement.Rule.TheVariants as of_kind;
ghost use Rattle.hs_judge.specs.Right.{IsJudged};

use crate::answers::{of_other_kind, without_premise};
use crate::named::entailments;
use crate::tables::Tables;
use hs_check::NodeAnswer;
use hs_erule::right;
use hs_goal::{ERule, Goal};
use hs_heap::Formula;
use hs_node::{Node, Rule};
use hs_pure::NoMemory;
use std::alloc::Global;

impl Tables<'_> {
    // What is found of a goal with a residue by a rule of entailments.
    fn by_rule(
        &self,
        alloc: Global,
        before: &[Node],
        goal: &Goal,
        residue: &Formula,
        rule: &ERule,
        premises: &[u32],
    ) -> Result<NodeAnswer, NoMemory>
        requires sound { IsSound self.now.defs.now }
        requires small { self.now.atoms ≤ 2 ^ 30 }
        ensures { IfOk result (IsJudged self.now.defs.now self.now.program.now before.now (Entails goal.now residue.now) (of_kind.E rule.now) premises.now self.now.atoms) }
    {
        let pairs = entailments(alloc, before, premises)?;
        let answer = right(
            alloc,
            self.defs,
            goal,
            residue,
            rule,
            pairs.as_slice(),
            self.atoms,
        )?;
        if pairs.len() == premises.len() {
            Ok(answer)
        } else {
            Ok(without_premise(answer))
        }
    }

    /// What is found of a goal with a residue.
    pub fn entailed(
        &self,
        alloc: Global,
        before: &[Node],
        goal: &Goal,
        residue: &Formula,
        rule: &Rule,
        premises: &[u32],
    ) -> Result<NodeAnswer, NoMemory>
        requires sound { IsSound self.now.defs.now }
        requires small { self.now.atoms ≤ 2 ^ 30 }
        ensures { IfOk result (IsJudged self.now.defs.now self.now.program.now before.now (Entails goal.now residue.now) rule.now premises.now self.now.atoms) }
    {
        match rule {
            Rule::E(rule) => self.by_rule(alloc, before, goal, residue, rule, premises),
            _ => Ok(of_other_kind(goal.shape(alloc, self.defs)?)),
        }
    }
}
