//! When a formula may be renamed.

ghost use Rattle.std.specs.Prelude.{IsTrue};
ghost use Rattle.hs_pure.specs.Rename.{renaming, KeepsApart};

use crate::quantifiers::binds;
use hs_pure::{Pure, Var};

// Whether one variable becomes one whose number is above all others.
#[tactic(auto, using(crate::proofs::Apart::new_apart))]
fn becomes_new(p: &Pure, map: &[(Var, Var)]) -> bool
    ensures { IsTrue result → KeepsApart (renaming map.now) p.now }
{
    match map.split_first() {
        Some((pair, [])) => p.top() < pair.1.number,
        _ => false,
    }
}

/// Whether nothing is bound, or one variable becomes one whose number is above all others.
#[tactic(auto, using(crate::proofs::Apart::unbound_apart))]
pub fn keeps_apart(p: &Pure, map: &[(Var, Var)]) -> bool
    ensures { IsTrue result → KeepsApart (renaming map.now) p.now }
{
    if binds(p) {
        return becomes_new(p, map);
    }
    true
}
