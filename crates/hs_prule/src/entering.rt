//! The start of a pair.

ghost use Rattle.std.specs.Prelude.{◌≡◌, ◌++◌, Some, None, map, replicate, IfOk, OnOk};
ghost use Rattle.hs_program_rules.specs.Laws.{PairExists};
ghost use Rattle.hs_program_rules.specs.States.{entry, entry_held};

use crate::access::{method, pair};
use hs_core::{At, Method, Program, State};
use hs_program_parts::new_vars;
use hs_pure::{NoMemory, Var};
use sqlite_items::Items;
use std::alloc::Global;

/// The start of a pair, by numbers from 1: its precondition at the first instruction of its method. The slot of a
/// parameter holds the parameter's variable, other slots hold nothing.
pub fn entry(alloc: Global, program: &Program, method: u32, pair: u32) -> Result<At, NoMemory>
    requires there { PairExists program.now method pair }
    ensures exact { IfOk result (λ a. a ≡ entry program.now method pair) }
{
    start(alloc, program, method, pair)
}

fn start(alloc: Global, program: &Program, number: u32, place: u32) -> Result<At, NoMemory>
    requires { PairExists program.now number place }
    ensures { IfOk result (λ a. a ≡ entry program.now number place) }
{
    let m = method(program, number);
    let p = pair(m, place);
    let slots = entry_held(alloc, m)?;
    let formula = p.pre.copy(alloc)?;
    Ok(At {
        method: number,
        pair: place,
        point: 0,
        state: State {
            slots,
            formula,
            next: p.next,
        },
    })
}

// The slot of a parameter holds its variable, other slots hold nothing.
fn entry_held(alloc: Global, m: &Method) -> Result<Items<Option<Var>>, NoMemory>
    ensures { IfOk result (λ held. held ≡ entry_held m.now) }
{
    let params = new_vars(alloc, 1, m.params)?;
    let mut held = Items::new(alloc);
    push_vars(&mut held, params.as_slice())?;
    push_none(&mut held, m.slots.saturating_sub(m.params))?;
    Ok(held)
}

fn push_vars(held: &mut Items<Option<Var>>, vs: &[Var]) -> Result<(), NoMemory>
    ensures { OnOk result (held.new ≡ held.old ++ map (λ v. Some v) vs.now) }
{
    for v in vs {
        held.push(Some(*v))?;
    }
    Ok(())
}

fn push_none(held: &mut Items<Option<Var>>, count: u32) -> Result<(), NoMemory>
    ensures { OnOk result (held.new ≡ held.old ++ replicate count None) }
{
    for i in 0..count {
        let _number = i;
        held.push(None)?;
    }
    Ok(())
}
