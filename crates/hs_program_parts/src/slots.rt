//! What slots hold.

ghost use Rattle.std.specs.Prelude.{◌≡◌, IfOk, map};
ghost use Rattle.std.specs.List.{list_all};
ghost use Rattle.hs_program_rules.specs.States.{held_in, variable_in};
ghost use Rattle.hs_program_rules.specs.Parts.{variables_in, with_held, all_held};
ghost use Rattle.hs_program_parts.specs.Reading.{is_held};

use hs_pure::{NoMemory, Var};
use sqlite_items::Items;
use std::alloc::Global;

// The variable of a slot, where one has its value.
fn held_in(held: &[Option<Var>], k: u32) -> Option<Var>
    ensures { result ≡ held_in held.now k }
{
    if k == 0 {
        return None;
    }
    match held.get(k as usize - 1) {
        Some(slot) => *slot,
        None => None,
    }
}

/// The variable of a slot, by number from 1; where none has its value, the number variable 0.
pub fn variable(held: &[Option<Var>], k: u32) -> Var
    ensures { result ≡ variable_in held.now k }
{
    match held_in(held, k) {
        Some(v) => v,
        None => Var {
            number: 0,
            bag: false,
        },
    }
}

// Whether a variable has the value of the slot.
pub fn is_held(held: &[Option<Var>], k: u32) -> bool
    ensures { result ≡ is_held held.now k }
{
    match held_in(held, k) {
        Some(_) => true,
        None => false,
    }
}

pub fn are_held(held: &[Option<Var>], ks: &[u32]) -> bool
    ensures { result ≡ list_all (is_held held.now) ks.now }
{
    ks.iter().all(|k| is_held(held, *k))
}

/// The variables of slots.
pub fn variables(alloc: Global, held: &[Option<Var>], ks: &[u32]) -> Result<Items<Var>, NoMemory>
    ensures { IfOk result (λ vs. vs ≡ variables_in held.now ks.now) }
{
    let mut vs = Items::new(alloc);
    for k in ks {
        vs.push(variable(held, *k))?;
    }
    Ok(vs)
}

// Puts a variable into a slot, where there is such a slot.
fn put(held: &mut Items<Option<Var>>, k: u32, v: Var)
    ensures { held.new ≡ with_held held.old k v }
{
    let place = k.saturating_sub(1) as usize;
    if place < held.len() {
        held.set(place, Some(v));
    }
}

/// What slots hold, with a variable in a slot.
pub fn with_held(
    alloc: Global,
    held: &[Option<Var>],
    k: u32,
    v: Var,
) -> Result<Items<Option<Var>>, NoMemory>
    ensures { IfOk result (λ all. all ≡ with_held held.now k v) }
{
    let mut all = Items::from_slice(alloc, held)?;
    put(&mut all, k, v);
    Ok(all)
}

// Puts variables into slots; of two in one slot the first counts.
fn put_all(held: &mut Items<Option<Var>>, ks: &[u32], vs: &[Var])
    ensures { held.new ≡ all_held held.old ks.now vs.now }
{
    match ks {
        [] => {}
        [k, ks @ ..] => match vs {
            [] => {}
            [v, vs @ ..] => {
                put_all(held, ks, vs);
                put(held, *k, *v);
            }
        },
    }
}

/// What slots hold, with variables in slots; of two in one slot the first counts.
pub fn all_held(
    alloc: Global,
    held: &[Option<Var>],
    ks: &[u32],
    vs: &[Var],
) -> Result<Items<Option<Var>>, NoMemory>
    ensures { IfOk result (λ all. all ≡ all_held held.now ks.now vs.now) }
{
    let mut all = Items::from_slice(alloc, held)?;
    put_all(&mut all, ks, vs);
    Ok(all)
}
