//! Steps as nodes.

ghost use Rattle.std.specs.Prelude.{◌≡◌, ◌+◌, ◌++◌, length, map, reverse, IfOk, OnOk};
ghost use Rattle.hs_proof_nodes.specs.Placed.{placed, node_behind};

use hs_erule::{Proof, Step};
use hs_node::{Judgement, Node, Rule};
use hs_pure::NoMemory;
use sqlite_items::Items;
use std::alloc::Global;

/// Adds the steps of a proof behind the nodes, each as a node: its goal with its residue, by its rule, from the nodes of
/// its premises. The steps are moved. The answer is the number of the last node, from 1.
///
/// `NoMemory` comes where there is none, and where there would be more than 2^32 - 1 nodes.
pub fn push_proof(alloc: Global, nodes: &mut Items<Node>, proof: Proof) -> Result<u32, NoMemory>
    ensures placed { OnOk result (nodes.new ≡ nodes.old ++ placed (length nodes.old) proof) }
    ensures last { IfOk result (λ n. n ≡ length nodes.new) }
{
    let before = count(nodes)?;
    let mut rest = turned(alloc, proof.steps)?;
    while let Some(step) = rest.pop() {
        nodes.push(node_behind(alloc, before, step)?)?;
    }
    count(nodes)
}

// The number of nodes.
fn count(nodes: &Items<Node>) -> Result<u32, NoMemory>
    ensures { IfOk result (λ n. n ≡ length nodes.now) }
{
    match u32::try_from(nodes.len()) {
        Ok(count) => Ok(count),
        Err(_) => Err(NoMemory),
    }
}

// The steps, last first.
fn turned(alloc: Global, mut steps: Items<Step>) -> Result<Items<Step>, NoMemory>
    ensures { IfOk result (λ all. all ≡ reverse steps) }
{
    let mut all = Items::new(alloc);
    while let Some(step) = steps.pop() {
        all.push(step)?;
    }
    Ok(all)
}

// The step as a node behind so many others.
fn node_behind(alloc: Global, before: u32, step: Step) -> Result<Node, NoMemory>
    ensures { IfOk result (λ n. n ≡ node_behind before step) }
{
    let premises = numbers_behind(alloc, before, step.premises.as_slice())?;
    Ok(Node {
        judgement: Judgement::Entails(step.goal, step.residue),
        rule: Rule::E(step.rule),
        premises,
    })
}

// Each number, greater by `before`.
fn numbers_behind(alloc: Global, before: u32, numbers: &[u32]) -> Result<Items<u32>, NoMemory>
    ensures { IfOk result (λ all. all ≡ map (λ n. before + n) numbers.now) }
{
    let mut all = Items::new(alloc);
    for number in numbers {
        let Some(moved) = before.checked_add(*number) else {
            return Err(NoMemory);
        };
        all.push(moved)?;
    }
    Ok(all)
}
