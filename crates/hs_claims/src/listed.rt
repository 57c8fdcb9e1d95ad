//! The claims, in order.

ghost use Rattle.std.specs.Prelude.{◌≡◌, ◌<◌, ◌^◌, ◌++◌, length, map, IfOk, OnOk};
ghost use Rattle.hs_claims.specs.Claims as spec;
ghost use Rattle.hs_claims.specs.Claims.{invariants_to, entailment_claim, pairs_to, claims_of};

use crate::entries::push_entries;
use crate::goals::goal_of;
use crate::numbers::number_of;
use hs_core::Program;
use hs_node::Claim;
use hs_norm::{Entailment, Resolved};
use hs_pure::NoMemory;
use sqlite_items::Items;
use std::alloc::Global;

// The invariants of the first so many predicates.
fn invariants_to(alloc: Global, preds: u32) -> Result<Items<Claim>, NoMemory>
    ensures { IfOk result (λ all. all ≡ invariants_to preds) }
{
    let mut all = Items::new(alloc);
    for i in 0..preds {
        all.push(Claim::Invariant(i + 1))?;
    }
    Ok(all)
}

fn push_entailments(
    alloc: Global,
    all: &mut Items<Claim>,
    entailments: &[Entailment],
) -> Result<(), NoMemory>
    ensures { OnOk result (all.new ≡ all.old ++ map entailment_claim entailments.now) }
{
    for e in entailments {
        all.push(Claim::Entails(goal_of(alloc, e)?))?;
    }
    Ok(())
}

fn push_pairs(alloc: Global, all: &mut Items<Claim>, program: &Program) -> Result<(), NoMemory>
    ensures { OnOk result (all.new ≡ all.old ++ pairs_to program.now (length program.now.methods)) }
{
    let _ = number_of(program.methods.len())?;
    let mut m = 0;
    for method in program.methods.as_slice() {
        m += 1;
        push_entries(alloc, all, m, method)?;
    }
    Ok(())
}

/// What a source in normal form and its program claim: the invariants by predicate, then the first goals of the
/// entailments, then the starts of the pairs by method. There are fewer than 2^32 of them. `NoMemory` comes where there
/// is none, and where there would be more.
pub fn claims(
    alloc: Global,
    resolved: &Resolved,
    program: &Program,
) -> Result<Items<Claim>, NoMemory>
    ensures exact { IfOk result (λ all. all ≡ claims_of resolved.now program.now) }
    ensures few { IfOk result (λ all. length all < 2 ^ 32) }
{
    let preds = number_of(resolved.defs.preds.len())?;
    let mut all = invariants_to(alloc, preds)?;
    push_entailments(alloc, &mut all, resolved.entailments.as_slice())?;
    push_pairs(alloc, &mut all, program)?;
    let _ = number_of(all.len())?;
    Ok(all)
}
