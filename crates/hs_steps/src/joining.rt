//! Proofs put one after the other.

ghost use Rattle.std.specs.Prelude.{◌≡◌, ◌+◌, ◌++◌, length, map, reverse, IfOk, OnOk};
ghost use Rattle.hs_steps.specs.Joined.{shifted, placed, ends_of, residue_shown, joined_by};

use hs_erule::{Proof, Step};
use hs_goal::{ERule, Goal};
use hs_heap::Formula;
use hs_pure::NoMemory;
use sqlite_items::Items;
use std::alloc::Global;

/// The goal with the residue, by a rule from the conclusions of `parts`: their steps, one part after the other, and then
/// this step. The steps are moved.
///
/// `NoMemory` comes where there is none, and where a step would have a number past 32 bits.
pub fn join(
    alloc: Global,
    goal: Goal,
    rule: ERule,
    residue: Formula,
    parts: Vec<Proof>,
) -> Result<Proof, NoMemory>
    ensures joined { IfOk result (λ p. p ≡ joined_by goal rule residue parts.items) }
{
    let (mut steps, premises) = all_placed(alloc, parts)?;
    steps.push(Step {
        goal,
        residue,
        rule,
        premises,
    })?;
    Ok(Proof { steps })
}

/// The residue of the last step, and without a step no disjunct.
pub fn residue_shown(alloc: Global, proof: &Proof) -> Result<Formula, NoMemory>
    ensures shown { IfOk result (λ f. f ≡ residue_shown proof.now) }
{
    match proof.steps.as_slice().last() {
        Some(step) => step.residue.copy(alloc),
        None => Ok(Formula {
            cases: Items::new(alloc),
        }),
    }
}

// The steps of all parts, and the numbers of their last steps.
fn all_placed(alloc: Global, parts: Vec<Proof>) -> Result<(Items<Step>, Items<u32>), NoMemory>
    ensures steps { IfOk result (λ all. all.0 ≡ placed 0 parts.items) }
    ensures ends { IfOk result (λ all. all.1 ≡ ends_of 0 parts.items) }
{
    let mut steps = Items::new(alloc);
    let mut ends = Items::new(alloc);
    for part in parts {
        place(alloc, &mut steps, part.steps)?;
        ends.push(count(&steps)?)?;
    }
    Ok((steps, ends))
}

// Moves the steps of a part to the end; those of the first part stay as they are.
fn place(alloc: Global, steps: &mut Items<Step>, part: Items<Step>) -> Result<(), NoMemory>
    ensures { OnOk result (steps.new ≡ steps.old ++ map (shifted (length steps.old)) part) }
{
    if steps.is_empty() {
        *steps = part;
        return Ok(());
    }
    let before = count(steps)?;
    let mut rest = turned(alloc, part)?;
    while let Some(step) = rest.pop() {
        steps.push(behind(alloc, before, step)?)?;
    }
    Ok(())
}

// The number of steps.
fn count(steps: &Items<Step>) -> Result<u32, NoMemory>
    ensures { IfOk result (λ n. n ≡ length steps.now) }
{
    match u32::try_from(steps.len()) {
        Ok(count) => Ok(count),
        Err(_) => Err(NoMemory),
    }
}

// The steps, last first.
fn turned(alloc: Global, mut steps: Items<Step>) -> Result<Items<Step>, NoMemory>
    ensures { IfOk result (λ all. all ≡ reverse steps) }
{
    let mut all = Items::new(alloc);
    while let Some(step) = steps.pop() {
        all.push(step)?;
    }
    Ok(all)
}

// The step behind so many others.
fn behind(alloc: Global, before: u32, mut step: Step) -> Result<Step, NoMemory>
    ensures { IfOk result (λ s. s ≡ shifted before step) }
{
    step.premises = numbers_behind(alloc, before, step.premises.as_slice())?;
    Ok(step)
}

// Each number, greater by `before`.
fn numbers_behind(alloc: Global, before: u32, numbers: &[u32]) -> Result<Items<u32>, NoMemory>
    ensures { IfOk result (λ all. all ≡ map (λ n. before + n) numbers.now) }
{
    let mut all = Items::new(alloc);
    for number in numbers {
        let Some(moved) = before.checked_add(*number) else {
            return Err(NoMemory);
        };
        all.push(moved)?;
    }
    Ok(all)
}
