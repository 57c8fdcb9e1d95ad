//! What a stage asks of the whole formula before it is built: sizes and least common multiples.

ghost use Rattle.std.specs.Prelude.{◌≡◌, ◌+◌, ◌≤◌, ◌<◌, ◌^◌, map, min, sum, IfSome, SomeIff};
ghost use Rattle.std.specs.List.{fold};
ghost use Rattle.hs_elimination.specs.Linear.{place};
ghost use Rattle.hs_elimination.specs.Form.{atoms};
ghost use Rattle.hs_elimination.specs.Scaling.{multiplier, multiplier_with};
ghost use Rattle.hs_elimination.specs.Cases.{minus_infinity};
ghost use Rattle.hs_cooper_forms.specs.Reading.{form_of};
ghost use Rattle.hs_cooper.specs.Surveying.{multiplier_of_all, low_atoms};

use crate::lcm::lcm;
use hs_cooper_forms::{Nnf, at_low, coefficient};
use hs_pure::Var;
use std::cmp::min;

// How many atoms `f` has, or `budget + 1` if there are more than `budget`.
#[cycle(sizing)]
pub(crate) fn count_atoms(f: &Nnf, budget: u64) -> u64
    requires { budget < 2 ^ 31 }
    ensures { result ≡ min (atoms (form_of f.now)) (budget + 1) }
{
    match f {
        Nnf::Truth(_) => 0,
        Nnf::Literal(_) => 1,
        Nnf::Joined(_, fs) => count_all_atoms(fs.as_slice(), budget),
    }
}

#[cycle(sizing)]
fn count_all_atoms(fs: &[Nnf], budget: u64) -> u64
    requires { budget < 2 ^ 31 }
    ensures { result ≡ min (sum (map (λ f. atoms (form_of f)) fs.now)) (budget + 1) }
{
    let mut count = 0;
    for f in fs {
        count = min(count + count_atoms(f, budget), budget + 1);
    }
    count
}

// The same of the minus-infinity form.
#[cycle(lower_sizing)]
pub(crate) fn count_low(f: &Nnf, x: Var, budget: u64) -> u64
    requires { budget < 2 ^ 31 }
    ensures { result ≡ min (low_atoms (place x) (form_of f.now)) (budget + 1) }
{
    match f {
        Nnf::Truth(_) => 0,
        Nnf::Literal(l) => if at_low(l, x).is_some() { 0 } else { 1 },
        Nnf::Joined(_, fs) => count_all_low(fs.as_slice(), x, budget),
    }
}

#[cycle(lower_sizing)]
fn count_all_low(fs: &[Nnf], x: Var, budget: u64) -> u64
    requires { budget < 2 ^ 31 }
    ensures { result ≡ min (sum (map (λ f. low_atoms (place x) (form_of f)) fs.now)) (budget + 1) }
{
    let mut count = 0;
    for f in fs {
        count = min(count + count_low(f, x, budget), budget + 1);
    }
    count
}

fn multiplier_with(m: u128, c: i128) -> Option<u128>
    requires positive { 0 < m }
    requires fits { m < 2 ^ 127 }
    ensures { SomeIff result (multiplier_with m c < 2 ^ 127) (multiplier_with m c) }
{
    if c == 0 {
        return Some(m);
    }
    lcm(m, c.unsigned_abs())
}

// The least common multiple of `m` and the coefficients of `x`, if it is a number of 127 bits.
#[cycle(multiplying)]
pub(crate) fn multiplier(f: &Nnf, x: Var, m: u128) -> Option<u128>
    requires positive { 0 < m }
    requires fits { m < 2 ^ 127 }
    ensures { SomeIff result (multiplier (place x) (form_of f.now) m < 2 ^ 127) (multiplier (place x) (form_of f.now) m) }
{
    match f {
        Nnf::Truth(_) => Some(m),
        Nnf::Literal(l) => multiplier_with(m, coefficient(&l.sum, x)),
        Nnf::Joined(_, fs) => multiplier_of_all(fs.as_slice(), x, m),
    }
}

#[cycle(multiplying)]
fn multiplier_of_all(fs: &[Nnf], x: Var, m: u128) -> Option<u128>
    requires positive { 0 < m }
    requires fits { m < 2 ^ 127 }
    ensures { SomeIff result (multiplier_of_all (place x) fs.now m < 2 ^ 127) (multiplier_of_all (place x) fs.now m) }
{
    let mut multiple = m;
    for f in fs {
        match multiplier(f, x, multiple) {
            Some(next) => multiple = next,
            None => return None,
        }
    }
    Some(multiple)
}
