//! Sums whose absolute coefficients and constant add up to at most 2^60.

ghost use Rattle.std.specs.Prelude.{◌≡◌, ◌≤◌, ◌+◌, ◌^◌, min};
ghost use Rattle.hs_pure.specs.Sums.{weight};
ghost use Rattle.hs_unit.specs.Reduction.{is_small, all_small};
ghost use Rattle.hs_unit.specs.Sides.{forms};

use crate::sides::Kind;
use hs_pure::{Lin, Var};

const TOP: u128 = 1 << 60;

// The sum of two numbers, or one more than the bound where it is above.
fn at_most_next(a: u128, b: u128) -> u128
    requires first { a ≤ 2 ^ 60 + 1 }
    requires second { b ≤ 2 ^ 127 }
    ensures { result ≡ min (a + b) (2 ^ 60 + 1) }
{
    (a + b).min(TOP + 1)
}

// The absolute coefficients added up, or one more than the bound where they are above.
fn weight(ts: &[(Var, i128)]) -> u128
    ensures { result ≡ min (weight ts.now) (2 ^ 60 + 1) }
{
    let mut sum = 0;
    for t in ts {
        sum = at_most_next(sum, t.1.unsigned_abs());
    }
    sum
}

pub(crate) fn is_small(a: &Lin) -> bool
    ensures { result ≡ is_small a.now }
{
    at_most_next(weight(a.terms.as_slice()), a.constant.unsigned_abs()) <= TOP
}

// Whether each form is small.
pub(crate) fn all_small(forms: &[Lin]) -> bool
    ensures { result ≡ all_small forms.now }
{
    for f in forms {
        if !is_small(f) {
            return false;
        }
    }
    true
}

// Whether the form of each comparison is small.
pub(crate) fn are_small(right: &[(Kind, Lin)]) -> bool
    ensures { result ≡ all_small (forms right.now) }
{
    for c in right {
        if !is_small(&c.1) {
            return false;
        }
    }
    true
}
