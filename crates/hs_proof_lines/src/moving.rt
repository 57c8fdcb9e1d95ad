//! Nodes put behind others.

ghost use Rattle.std.specs.Prelude.{◌≡◌, ◌+◌, ◌++◌, ◌∷◌, [], length, map, reverse, IfOk, OnOk};
ghost use Rattle.hs_proof_lines.specs.Proved as spec;
ghost use Rattle.hs_proof_lines.specs.Proved.{invariant_node, moved};

use crate::numbers::number_of;
use hs_node::{Judgement, Node, Rule};
use hs_pure::NoMemory;
use sqlite_items::Items;
use std::alloc::Global;

// Each number, greater by `before`.
fn numbers_behind(alloc: Global, before: u32, numbers: &[u32]) -> Result<Items<u32>, NoMemory>
    ensures { IfOk result (λ all. all ≡ map (λ p. before + p) numbers.now) }
{
    let mut all = Items::new(alloc);
    for number in numbers {
        let Some(moved) = before.checked_add(*number) else {
            return Err(NoMemory);
        };
        all.push(moved)?;
    }
    Ok(all)
}

// The node put behind so many others.
fn moved_node(alloc: Global, before: u32, node: Node) -> Result<Node, NoMemory>
    ensures { IfOk result (λ n. n ≡ spec.moved_node before node) }
{
    let premises = numbers_behind(alloc, before, node.premises.as_slice())?;
    Ok(Node {
        judgement: node.judgement,
        rule: node.rule,
        premises,
    })
}

// The nodes, last first.
fn turned(alloc: Global, mut nodes: Items<Node>) -> Result<Items<Node>, NoMemory>
    ensures { IfOk result (λ all. all ≡ reverse nodes) }
{
    let mut all = Items::new(alloc);
    while let Some(node) = nodes.pop() {
        all.push(node)?;
    }
    Ok(all)
}

/// Moves nodes behind those that are there. The answer is the number of the last node, from 1. `NoMemory` comes where there
/// is none, and where there would be more than 2^32 - 1 nodes.
pub fn push_moved(alloc: Global, nodes: &mut Items<Node>, own: Items<Node>) -> Result<u32, NoMemory>
    ensures moved { OnOk result (nodes.new ≡ nodes.old ++ moved (length nodes.old) own) }
    ensures last { IfOk result (λ n. n ≡ length nodes.new) }
{
    let before = number_of(nodes.len())?;
    let mut rest = turned(alloc, own)?;
    while let Some(node) = rest.pop() {
        nodes.push(moved_node(alloc, before, node)?)?;
    }
    number_of(nodes.len())
}

/// Adds the node of an invariant behind those that are there. The answer is its number, from 1.
pub fn push_invariant(alloc: Global, nodes: &mut Items<Node>, pred: u32) -> Result<u32, NoMemory>
    ensures added { OnOk result (nodes.new ≡ nodes.old ++ invariant_node pred ∷ []) }
    ensures last { IfOk result (λ n. n ≡ length nodes.new) }
{
    let node = Node {
        judgement: Judgement::Shown(pred),
        rule: Rule::Inv,
        premises: Items::new(alloc),
    };
    nodes.push(node)?;
    number_of(nodes.len())
}
