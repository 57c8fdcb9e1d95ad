//! The value of a number variable at a valuation.

ghost use Rattle.std.specs.Prelude.{◌≡◌};
ghost use Rattle.hs_pure.specs.Eval.{found};

use hs_pure::{Valuation, Var};

pub(crate) fn number(v: &Valuation, u: Var) -> i128
    ensures { result ≡ found v.now.numbers u }
{
    for pair in v.numbers.as_slice() {
        if pair.0 == u {
            return pair.1;
        }
    }
    0
}
