//! The starts of the pairs of a method.

ghost use Rattle.std.specs.Prelude.{◌≡◌, ◌++◌, IfOk, OnOk};
ghost use Rattle.hs_program_rules.specs.States as states;
ghost use Rattle.hs_claims.specs.Entries as spec;

use crate::numbers::number_of;
use hs_core::{At, Method, Pair, State};
use hs_node::Claim;
use hs_pure::{NoMemory, Var};
use sqlite_items::Items;
use std::alloc::Global;

// What slots hold at the start: that of each parameter its variable, the others nothing.
fn entry_held(alloc: Global, method: &Method) -> Result<Items<Option<Var>>, NoMemory>
    ensures { IfOk result (λ held. held ≡ states.entry_held method.now) }
{
    let mut held = Items::new(alloc);
    for n in 0..method.params {
        let parameter = Var {
            number: n + 1,
            bag: false,
        };
        held.push(Some(parameter))?;
    }
    let others = method.slots.saturating_sub(method.params);
    for _ in 0..others {
        held.push(None)?;
    }
    Ok(held)
}

// The start of a pair of a method, by their numbers.
fn entry(alloc: Global, m: u32, method: &Method, i: u32, pair: &Pair) -> Result<At, NoMemory>
    ensures { IfOk result (λ at. at ≡ spec.entry_by m method.now i pair.now) }
{
    let slots = entry_held(alloc, method)?;
    let state = State {
        slots,
        formula: pair.pre.copy(alloc)?,
        next: pair.next,
    };
    Ok(At {
        method: m,
        pair: i,
        point: 0,
        state,
    })
}

/// Adds the starts of all pairs of a method, by the method's number. `NoMemory` comes where there is none.
pub fn push_entries(
    alloc: Global,
    all: &mut Items<Claim>,
    m: u32,
    method: &Method,
) -> Result<(), NoMemory>
    ensures { OnOk result (all.new ≡ all.old ++ spec.all_entries m method.now) }
{
    let _ = number_of(method.pairs.len())?;
    let mut i = 0;
    for pair in method.pairs.as_slice() {
        i += 1;
        all.push(Claim::Pair(entry(alloc, m, method, i, pair)?))?;
    }
    Ok(())
}
