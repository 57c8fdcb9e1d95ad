//! The value of a sum.

ghost use Rattle.std.specs.Prelude.{◌≡◌, None, FitsSigned, IfSome};
ghost use mir.Syntax.{w128};
ghost use Rattle.hs_pure.specs.Eval.{found, stack_of};
ghost use Rattle.hs_pure.specs.Truth.{value};

use crate::limbs::Limbs;
use hs_pure::{Lin, Valuation, Var};

fn number(v: &Valuation, u: Var) -> i128
    ensures { result ≡ found v.now.numbers u }
{
    for pair in v.numbers.as_slice() {
        if pair.0 == u {
            return pair.1;
        }
    }
    0
}

/// The value of the sum where variables are worth what `v` says, or none exactly where it has more than 128 bits.
pub fn exact_value(a: &Lin, v: &Valuation) -> Option<i128>
    ensures some { IfSome result (λ x. x ≡ value (stack_of v.now) a.now) }
    ensures none { result ≡ None → ¬ (FitsSigned w128 (value (stack_of v.now) a.now)) }
{
    let mut sum = Limbs::zero();
    for t in a.terms.as_slice() {
        sum = sum.add_product(t.1, number(v, t.0));
    }
    sum.add_product(a.constant, 1).total()
}
