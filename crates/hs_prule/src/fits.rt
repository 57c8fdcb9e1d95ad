//! Which states are well formed.

ghost use Rattle.std.specs.Prelude.{◌≡◌, ◌↔◌, IsTrue};
ghost use Rattle.std.specs.List.{list_all};
ghost use Rattle.hs_core.specs.Tests.{is_slot};
ghost use Rattle.hs_goal.specs.Shape.{SideFits};
ghost use Rattle.hs_program_rules.specs.States.{StateFits};
ghost use Rattle.hs_prule.specs.Fitting.{is_own, slot_fits, counts_fit, numbers_fit};

use crate::access::{method, pair};
use hs_core::{At, Method, Pair, Program};
use hs_goal::side_fits;
use hs_heap::Defs;
use hs_pure::Var;

const MAX_NEXT: u32 = 1 << 30;

/// Whether a state is well formed: its method, pair and point are there, each slot is there and holds nothing, a
/// parameter's variable or one that the pair does not have, `next` is at most 2^30 and above all numbers, and the formula
/// fits. It takes no memory.
pub fn state_fits(program: &Program, defs: &Defs, at: &At) -> bool
    ensures exact { IsTrue result ↔ StateFits defs.now program.now at.now }
{
    if at.method == 0 || program.methods.len() < at.method as usize {
        return false;
    }
    let m = method(program, at.method);
    if at.pair == 0 || m.pairs.len() < at.pair as usize {
        return false;
    }
    fits_in(defs, m, pair(m, at.pair), at)
}

fn fits_in(defs: &Defs, m: &Method, p: &Pair, at: &At) -> bool
    ensures { IsTrue result ↔ (IsTrue (numbers_fit m.now p.now at.now) × SideFits defs.now at.now.state.next at.now.state.formula) }
{
    numbers_fit(m, p, at) && side_fits(defs, at.state.next, &at.state.formula)
}

fn numbers_fit(m: &Method, p: &Pair, at: &At) -> bool
    ensures { result ≡ numbers_fit m.now p.now at.now }
{
    counts_fit(m, p, at) && slots_fit(m, p, at.state.next, at.state.slots.as_slice())
}

fn counts_fit(m: &Method, p: &Pair, at: &At) -> bool
    ensures { result ≡ counts_fit m.now p.now at.now }
{
    (at.point as usize) < m.code.len()
        && at.state.slots.len() == m.slots as usize
        && p.next <= at.state.next
        && at.state.next <= MAX_NEXT
}

fn slots_fit(m: &Method, p: &Pair, next: u32, slots: &[Option<Var>]) -> bool
    ensures { result ≡ list_all (slot_fits m.now p.now next) slots.now }
{
    slots.iter().all(|slot| slot_fits(m, p, next, *slot))
}

fn slot_fits(m: &Method, p: &Pair, next: u32, slot: Option<Var>) -> bool
    ensures { result ≡ slot_fits m.now p.now next slot }
{
    match slot {
        Some(v) => is_own(m, p, v) && v.number < next,
        None => true,
    }
}

// Whether it is a parameter's variable, or a number variable that the pair does not have.
fn is_own(m: &Method, p: &Pair, v: Var) -> bool
    ensures { result ≡ is_own m.now p.now v }
{
    is_slot(m.params, v) || !v.bag && p.next <= v.number
}

fn is_slot(count: u32, v: Var) -> bool
    ensures { result ≡ is_slot count v }
{
    !v.bag && 1 <= v.number && v.number <= count
}
