//! Nodes with states of programs.

ghost use Rattle.std.specs.Prelude.{IfOk};
ghost use Rattle.hs_heap.specs.Sound.{IsSound};
ghost use Rattle.hs_core.specs.Sound.{IsSoundProgram};
ghost use Rattle.hs_node.specs.declared.judgement.Judgement.TheVariants.{Runs};
ghost use Rattle.hs_node.specs.declared.judgement.Rule.TheVariants as of_kind;
ghost use Rattle.hs_judge.specs.Right.{IsJudged};

use crate::answers::{of_other_kind, without_premise};
use crate::named::named;
use crate::tables::Tables;
use hs_check::NodeAnswer;
use hs_core::{At, PRule};
use hs_node::{Node, Rule};
use hs_prule::{right, state_fits};
use hs_pure::NoMemory;
use std::alloc::Global;

impl Tables<'_> {
    // What is found of a state by a rule of programs.
    fn by_instruction(
        &self,
        alloc: Global,
        before: &[Node],
        at: &At,
        rule: &PRule,
        premises: &[u32],
    ) -> Result<NodeAnswer, NoMemory>
        requires sound { IsSound self.now.defs.now }
        requires program { IsSoundProgram self.now.defs.now self.now.program.now }
        ensures { IfOk result (IsJudged self.now.defs.now self.now.program.now before.now (Runs at.now) (of_kind.P rule.now) premises.now self.now.atoms) }
    {
        let judgements = named(alloc, before, premises)?;
        let answer = right(
            alloc,
            self.program,
            self.defs,
            at,
            rule,
            judgements.as_slice(),
        )?;
        if judgements.len() == premises.len() {
            Ok(answer)
        } else {
            Ok(without_premise(answer))
        }
    }

    /// What is found of a state.
    pub fn run(
        &self,
        alloc: Global,
        before: &[Node],
        at: &At,
        rule: &Rule,
        premises: &[u32],
    ) -> Result<NodeAnswer, NoMemory>
        requires sound { IsSound self.now.defs.now }
        requires program { IsSoundProgram self.now.defs.now self.now.program.now }
        ensures { IfOk result (IsJudged self.now.defs.now self.now.program.now before.now (Runs at.now) rule.now premises.now self.now.atoms) }
    {
        match rule {
            Rule::P(rule) => self.by_instruction(alloc, before, at, rule, premises),
            _ => Ok(of_other_kind(state_fits(self.program, self.defs, at))),
        }
    }
}
