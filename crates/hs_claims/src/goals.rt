//! The goals of entailments.

ghost use Rattle.std.specs.Prelude.{◌≡◌, IfOk};
ghost use Rattle.hs_claims.specs.Claims as spec;

use hs_goal::Goal;
use hs_norm::Entailment;
use hs_pure::NoMemory;
use sqlite_items::Items;
use std::alloc::Global;

/// The goal that an entailment asks: nothing is used up, and new numbers begin behind those of the entailment.
/// `NoMemory` comes where there is none.
pub fn goal_of(alloc: Global, e: &Entailment) -> Result<Goal, NoMemory>
    ensures exact { IfOk result (λ g. g ≡ spec.goal_of e.now) }
{
    let left = e.left.copy(alloc)?;
    let right = e.right.copy(alloc)?;
    let opens = Items::from_slice(alloc, e.opens.as_slice())?;
    Ok(Goal::start(alloc, left, opens, right, e.next))
}
