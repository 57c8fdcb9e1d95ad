//! What deciding, elimination and evaluation ask of a formula.

ghost use Rattle.std.specs.Prelude.{◌≡◌, ◌<◌, ◌^◌, false, IsTrue};
ghost use Rattle.hs_pure.specs.declared.var.Var.{Var};
ghost use Rattle.hs_pure.specs.Assertion.{assertion_of};
ghost use Rattle.hs_pure.specs.Eval.{has_quantifiers};
ghost use Rattle.hs_pure.specs.Occurs.{occurs, is_bags_plain};
ghost use Rattle.hs_pure.specs.Sums.{IsOrdered};
ghost use Rattle.hs_elimination.specs.Normal.{is_simple};

use crate::quantifiers::has_quantifiers;
use hs_heap::is_proper;
use hs_pure::Pure;

// Numbers are below this.
const MOST: u32 = 1 << 31;

/// Whether no bag literal stands under a quantifier or inside of an `all`, the sums are in order, and the numbers are
/// below 2^31. A formula that fails may have a connective with one member, or a variable of the wrong kind.
pub fn is_decidable(p: &Pure) -> bool
    ensures plain { IsTrue result → IsTrue (is_bags_plain p.now) }
    ensures ordered { IsTrue result → IsOrdered p.now }
    ensures low { IsTrue result → (v : Var) → IsTrue (occurs v p.now) → v.number < 2 ^ 31 }
{
    is_proper(p) && p.top() < MOST
}

/// Whether it has no quantifiers.
pub fn is_flat(p: &Pure) -> bool
    ensures { IsTrue result → has_quantifiers p.now ≡ false }
{
    !has_quantifiers(p)
}

/// Whether it has neither bag literals nor quantifiers, and the sums are in order. A formula that fails may have a
/// connective with one member, or a variable of the wrong kind.
#[tactic(auto, using(crate::proofs::Simple::simple))]
pub fn is_simple(p: &Pure) -> bool
    ensures simple { IsTrue result → IsTrue (is_simple (assertion_of p.now)) }
    ensures flat { IsTrue result → has_quantifiers p.now ≡ false }
    ensures ordered { IsTrue result → IsOrdered p.now }
{
    if has_quantifiers(p) || p.has_bags() {
        return false;
    }
    is_proper(p)
}
