//! Postconditions, terms and conditions over the variables that slots hold.

ghost use Rattle.std.specs.Prelude.{◌≡◌, ◌<◌, ◌^◌, length, IfOk};
ghost use Rattle.hs_pure.specs.Rename.{renamed, renamed_lin};
ghost use Rattle.hs_heap.specs.Renamed.{renamed_formula};
ghost use Rattle.hs_core.specs.Sound.{TermFits, ConditionFits};
ghost use Rattle.hs_program_rules.specs.States.{variable_in};
ghost use Rattle.hs_program_rules.specs.Parts.{return_renaming};
ghost use Rattle.hs_program_parts.specs.Pairs.{CanBeCalled};

use crate::pairs::{return_pairs, slot_pairs};
use hs_core::{Method, Pair};
use hs_heap::Formula;
use hs_pure::{Lin, NoMemory, Pure, Var};
use std::alloc::Global;

/// The postcondition of the pair, over what slots hold at a return.
pub fn return_formula(
    alloc: Global,
    m: &Method,
    p: &Pair,
    from: Option<u32>,
    held: &[Option<Var>],
) -> Result<Formula, NoMemory>
    requires able { CanBeCalled m.now p.now }
    ensures { IfOk result (λ f. f ≡ renamed_formula (return_renaming m.now from held.now) p.now.post) }
{
    let pairs = return_pairs(alloc, m, from, held)?;
    p.post.put_names(alloc, pairs.as_slice())
}

/// A term over the variables that slots hold.
pub fn over_term(alloc: Global, held: &[Option<Var>], term: &Lin) -> Result<Lin, NoMemory>
    requires fits { TermFits (length held.now) term.now }
    requires few { length held.now < 2 ^ 32 }
    ensures { IfOk result (λ a. a ≡ renamed_lin (λ v. variable_in held.now v.number) term.now) }
{
    let pairs = slot_pairs(alloc, held)?;
    term.rename(alloc, pairs.as_slice())
}

/// A condition over the variables that slots hold.
pub fn over_condition(
    alloc: Global,
    held: &[Option<Var>],
    condition: &Pure,
) -> Result<Pure, NoMemory>
    requires fits { ConditionFits (length held.now) condition.now }
    requires few { length held.now < 2 ^ 32 }
    ensures { IfOk result (λ p. p ≡ renamed (λ v. variable_in held.now v.number) condition.now) }
{
    let pairs = slot_pairs(alloc, held)?;
    condition.put_names(alloc, pairs.as_slice())
}
