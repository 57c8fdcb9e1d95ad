//! What the premises of a node name.

ghost use Rattle.std.specs.Prelude.{◌≡◌, IfOk};
ghost use Rattle.std.specs.Option.{option_copied};
ghost use Rattle.hs_judge.specs.Named as spec;
ghost use Rattle.hs_judge.specs.Named.{item_at, entailment_of};

use hs_goal::Goal;
use hs_heap::Formula;
use hs_node::{Judgement, Node};
use hs_pure::NoMemory;
use sqlite_items::Items;
use std::alloc::Global;

// The node of a number from 1.
fn node_at(before: &[Node], number: u32) -> Option<&Node>
    ensures { option_copied result ≡ item_at before.now number }
{
    if number == 0 {
        return None;
    }
    before.get(number as usize - 1)
}

/// Copies of the judgements of nodes, by their numbers, up to the first number that is of no node.
pub fn named(alloc: Global, before: &[Node], numbers: &[u32]) -> Result<Items<Judgement>, NoMemory>
    ensures { IfOk result (λ all. all ≡ spec.named before.now numbers.now) }
{
    let mut all = Items::new(alloc);
    for number in numbers {
        let Some(node) = node_at(before, *number) else {
            return Ok(all);
        };
        all.push(node.judgement.copy(alloc)?)?;
    }
    Ok(all)
}

// A copy of the goal and the residue of a node, where it is there and concludes an entailment.
fn entailment(
    alloc: Global,
    before: &[Node],
    number: u32,
) -> Result<Option<(Goal, Formula)>, NoMemory>
    ensures { IfOk result (λ p. p ≡ entailment_of (item_at before.now number)) }
{
    match node_at(before, number) {
        Some(node) => copied(alloc, &node.judgement),
        None => Ok(None),
    }
}

fn copied(alloc: Global, judgement: &Judgement) -> Result<Option<(Goal, Formula)>, NoMemory>
    ensures { IfOk result (λ p. p ≡ spec.goal_and_residue judgement.now) }
{
    match judgement {
        Judgement::Entails(goal, residue) => {
            let goal = goal.copy(alloc)?;
            Ok(Some((goal, residue.copy(alloc)?)))
        }
        _ => Ok(None),
    }
}

/// Copies of the goals and the residues of nodes, by their numbers, up to the first number that is of no node with an
/// entailment.
pub fn entailments(
    alloc: Global,
    before: &[Node],
    numbers: &[u32],
) -> Result<Items<(Goal, Formula)>, NoMemory>
    ensures { IfOk result (λ all. all ≡ spec.entailments (spec.named before.now numbers.now)) }
{
    let mut all = Items::new(alloc);
    for number in numbers {
        let Some(pair) = entailment(alloc, before, *number)? else {
            return Ok(all);
        };
        all.push(pair)?;
    }
    Ok(all)
}
