ghost use Rattle.std.specs.Prelude.{◌≡◌, IfOk};

use crate::judgement::{Judgement, Rule};
use crate::lists::copy_nodes;
use hs_pure::NoMemory;
use sqlite_items::Items;
use std::alloc::Global;

/// A judgement that a rule gives from the judgements of other nodes, which are numbered from 1.
#[derive(Drop)]
pub struct Node {
    pub judgement: Judgement,
    pub rule: Rule,
    pub premises: Items<u32>,
}

impl Node {
    /// An equal node.
    pub fn copy(&self, alloc: Global) -> Result<Node, NoMemory>
        ensures same { IfOk result (λ n. n ≡ self.now) }
    {
        Ok(Node {
            judgement: self.judgement.copy(alloc)?,
            rule: self.rule.copy(alloc)?,
            premises: Items::from_slice(alloc, self.premises.as_slice())?,
        })
    }
}

/// Nodes, and which claim, by number from 1, is concluded by which node.
#[derive(Drop)]
pub struct Derivation {
    pub nodes: Items<Node>,
    pub claims: Items<(u32, u32)>,
}

impl Derivation {
    /// An equal derivation.
    pub fn copy(&self, alloc: Global) -> Result<Derivation, NoMemory>
        ensures same { IfOk result (λ d. d ≡ self.now) }
    {
        Ok(Derivation {
            nodes: copy_nodes(alloc, self.nodes.as_slice())?,
            claims: Items::from_slice(alloc, self.claims.as_slice())?,
        })
    }
}
