//! Conclusions of states from their further premises.

ghost use Rattle.std.specs.Prelude.{◌≡◌, ◌++◌, reverse, IfOk, OnOk};
ghost use Rattle.hs_core.specs.Set.{optional};
ghost use Rattle.hs_verify.specs.Visited.{IsConcluded, IsSplit};

use crate::choosing::number_of;
use crate::task::Taken;
use hs_core::At;
use hs_node::{Judgement, Node, Rule};
use hs_pure::NoMemory;
use sqlite_items::Items;
use std::alloc::Global;

// Takes so many of the last numbers away; they come last first.
fn take_last(alloc: Global, ends: &mut Items<u32>, count: usize) -> Result<Items<u32>, NoMemory>
    ensures { IfOk result (IsSplit ends.old ends.new count) }
{
    let mut taken = Items::new(alloc);
    for _ in 0..count {
        let Some(end) = ends.pop() else {
            return Err(NoMemory);
        };
        taken.push(end)?;
    }
    Ok(taken)
}

// The number of the goal's node, if there is one, and then these numbers, which come last first.
fn premises(
    alloc: Global,
    goal: Option<u32>,
    mut turned: Items<u32>,
) -> Result<Items<u32>, NoMemory>
    ensures { IfOk result (λ all. all ≡ optional goal ++ reverse turned) }
{
    let mut all = Items::new(alloc);
    if let Some(goal) = goal {
        all.push(goal)?;
    }
    while let Some(end) = turned.pop() {
        all.push(end)?;
    }
    Ok(all)
}

// Adds the node of a state behind those of its premises, and puts its number in the place of theirs.
pub fn conclude(
    alloc: Global,
    nodes: &mut Items<Node>,
    ends: &mut Items<u32>,
    at: At,
    taken: Taken,
) -> Result<(), NoMemory>
    ensures { OnOk result (IsConcluded at taken nodes.old ends.old nodes.new ends.new) }
{
    let last = take_last(alloc, ends, taken.further)?;
    let premises = premises(alloc, taken.goal, last)?;
    nodes.push(Node {
        judgement: Judgement::Runs(at),
        rule: Rule::P(taken.rule),
        premises,
    })?;
    ends.push(number_of(nodes.len())?)?;
    Ok(())
}
