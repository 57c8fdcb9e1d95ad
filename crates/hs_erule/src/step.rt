ghost use Rattle.std.specs.Prelude.{◌≡◌, IfOk};

use hs_goal::{ERule, Goal};
use hs_heap::Formula;
use hs_pure::NoMemory;
use sqlite_items::Items;
use std::alloc::Global;

/// A goal with its residue, which follows by a rule from the conclusions of earlier steps, by number from 1.
#[derive(Debug, Drop)]
pub struct Step {
    pub goal: Goal,
    pub residue: Formula,
    pub rule: ERule,
    pub premises: Items<u32>,
}

/// Steps of which the last is the conclusion.
#[derive(Debug, Drop)]
pub struct Proof {
    pub steps: Items<Step>,
}

impl Step {
    /// An equal step.
    pub fn copy(&self, alloc: Global) -> Result<Step, NoMemory>
        ensures { IfOk result (λ s. s ≡ self.now) }
    {
        Ok(Step {
            goal: self.goal.copy(alloc)?,
            residue: self.residue.copy(alloc)?,
            premises: Items::from_slice(alloc, self.premises.as_slice())?,
            rule: self.rule.copy(alloc)?,
        })
    }
}

impl Proof {
    /// An equal proof.
    pub fn copy(&self, alloc: Global) -> Result<Proof, NoMemory>
        ensures { IfOk result (λ p. p ≡ self.now) }
    {
        Ok(Proof {
            steps: copy_steps(alloc, self.steps.as_slice())?,
        })
    }
}

fn copy_steps(alloc: Global, steps: &[Step]) -> Result<Items<Step>, NoMemory>
    ensures { IfOk result (λ all. all ≡ steps.now) }
{
    let mut all = Items::new(alloc);
    for step in steps {
        all.push(step.copy(alloc)?)?;
    }
    Ok(all)
}
