//! The judge of nodes.

ghost use Rattle.std.specs.Prelude.{◌≤◌, ◌<◌, ◌^◌, length, IfOk, IsTrue};
ghost use Rattle.hs_heap.specs.Sound.{IsSound};
ghost use Rattle.hs_heap.specs.Tests.{defs_fit};
ghost use Rattle.hs_core.specs.Sound.{IsSoundProgram};
ghost use Rattle.hs_core.specs.Tests.{program_fits};
ghost use Rattle.hs_judge.specs.Right.{IsJudged};
ghost use Rattle.hs_judge.specs.Listed.{calculus};

use crate::concludes::concludes;
use crate::tables::Tables;
use hs_check::{Judge, NodeAnswer};
use hs_node::{Claim, Judgement, Node};
use hs_pure::NoMemory;
use std::alloc::{AllocError, Global};

/// Nodes are judged by sound tables, and conclude these claims.
#[derive(Drop)]
pub struct Listing<'a, 'b> {
    pub tables: Tables<'a>,
    pub claims: &'b [Claim],
    ghost sound: { IsTrue (defs_fit tables.defs.now) },
    ghost sound_program: { IsTrue (program_fits tables.defs.now tables.program.now) },
    ghost small: { tables.atoms ≤ 2 ^ 30 },
    ghost few: { length claims.now < 2 ^ 32 },
}

impl Tables<'_> {
    // What is found of a node behind others.
    fn answer(&self, alloc: Global, before: &[Node], node: &Node) -> Result<NodeAnswer, NoMemory>
        requires sound { IsSound self.now.defs.now }
        requires program { IsSoundProgram self.now.defs.now self.now.program.now }
        requires small { self.now.atoms ≤ 2 ^ 30 }
        ensures { IfOk result (IsJudged self.now.defs.now self.now.program.now before.now node.now.judgement node.now.rule node.now.premises self.now.atoms) }
    {
        let premises = node.premises.as_slice();
        match &node.judgement {
            Judgement::Shown(pred) => self.shown(alloc, before, *pred, &node.rule, premises),
            Judgement::Entails(goal, residue) => {
                self.entailed(alloc, before, goal, residue, &node.rule, premises)
            }
            Judgement::Runs(at) => self.run(alloc, before, at, &node.rule, premises),
        }
    }
}

impl<'a, 'b> Judge for Listing<'a, 'b> {
    type Node = Node;

    ghost calculus = { λ s. calculus s.tables.defs.now s.tables.program.now s.claims.now s.tables.atoms };

    ghost claims = { λ s. length s.claims.now };

    fn judge(&self, alloc: Global, nodes: &[Node], i: usize) -> Result<NodeAnswer, AllocError> {
        let (before, _) = nodes.split_at(i);
        match self.tables.answer(alloc, before, &nodes[i]) {
            Ok(answer) => Ok(answer),
            Err(NoMemory) => Err(AllocError),
        }
    }

    fn count(&self) -> u32 {
        self.claims.len() as u32
    }

    fn concludes(&self, claim: u32, node: &Node) -> bool {
        concludes(self.claims, claim, &node.judgement)
    }
}
