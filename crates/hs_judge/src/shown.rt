//! Nodes that show invariants.

ghost use Rattle.std.specs.Prelude.{◌≤◌, ◌^◌, IfOk};
ghost use Rattle.hs_heap.specs.Sound.{IsSound};
ghost use Rattle.hs_node.specs.declared.judgement.Judgement.TheVariants.{Shown};
ghost use Rattle.hs_node.specs.declared.judgement.Rule.TheVariants.{Inv};
ghost use Rattle.hs_judge.specs.Right.{IsJudged};

use crate::answers::{has_pred, of_invariant, of_other_kind};
use crate::tables::Tables;
use hs_check::{NodeAnswer, Reason};
use hs_inv::invariant;
use hs_node::{Node, Rule};
use hs_pure::NoMemory;
use std::alloc::Global;

impl Tables<'_> {
    // What is found of a node that shows an invariant by the rule of invariants.
    fn inv(
        &self,
        alloc: Global,
        before: &[Node],
        pred: u32,
        premises: &[u32],
    ) -> Result<NodeAnswer, NoMemory>
        requires sound { IsSound self.now.defs.now }
        requires small { self.now.atoms ≤ 2 ^ 30 }
        ensures { IfOk result (IsJudged self.now.defs.now self.now.program.now before.now (Shown pred) Inv premises.now self.now.atoms) }
    {
        if !has_pred(self.defs, pred) {
            return Ok(NodeAnswer::Wrong(Reason::Shape));
        }
        if !premises.is_empty() {
            return Ok(NodeAnswer::Wrong(Reason::Premise));
        }
        let answer = invariant(alloc, self.defs, pred, self.atoms)?;
        Ok(of_invariant(&answer))
    }

    /// What is found of a node that shows an invariant.
    pub fn shown(
        &self,
        alloc: Global,
        before: &[Node],
        pred: u32,
        rule: &Rule,
        premises: &[u32],
    ) -> Result<NodeAnswer, NoMemory>
        requires sound { IsSound self.now.defs.now }
        requires small { self.now.atoms ≤ 2 ^ 30 }
        ensures { IfOk result (IsJudged self.now.defs.now self.now.program.now before.now (Shown pred) rule.now premises.now self.now.atoms) }
    {
        match rule {
            Rule::Inv => self.inv(alloc, before, pred, premises),
            _ => Ok(of_other_kind(has_pred(self.defs, pred))),
        }
    }
}
