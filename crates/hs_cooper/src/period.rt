//! The least common multiple of the divisors of a variable's literals.

ghost use Rattle.std.specs.Prelude.{◌≡◌, ◌≤◌, ◌<◌, ◌^◌, None, IfSome};
ghost use Rattle.hs_elimination.specs.Linear.{place};
ghost use Rattle.hs_elimination.specs.Lcm.{lcm};
ghost use Rattle.hs_elimination.specs.Cases.{period, period_with};
ghost use Rattle.hs_cooper_forms.specs.Reading.{form_of, literal_form};
ghost use Rattle.hs_cooper.specs.Surveying.{period_of_all, IsPeriod, HasPositive, AllPositive};

use crate::lcm::lcm;
use hs_cooper_forms::{Literal, Nnf, Relation, coefficient};
use hs_pure::Var;

// The least common multiple of two numbers, if it is at most `budget`.
fn lcm_within(m: u64, d: u128, budget: u64) -> Option<u64>
    requires positive { 0 < m }
    requires small { budget < 2 ^ 31 }
    ensures value { IfSome result (IsPeriod budget (lcm m d)) }
    ensures over { result ≡ None → 0 < d → budget < lcm m d }
{
    if d == 0 {
        return None;
    }
    match lcm(u128::from(m), d) {
        Some(n) if n <= u128::from(budget) => Some(n as u64),
        _ => None,
    }
}

fn period_with(m: u64, l: &Literal, x: Var, budget: u64) -> Option<u64>
    requires positive { 0 < m }
    requires within { m ≤ budget }
    requires small { budget < 2 ^ 31 }
    ensures value { IfSome result (IsPeriod budget (period (place x) (literal_form l.now) m)) }
    ensures over { result ≡ None → HasPositive (literal_form l.now) → budget < period (place x) (literal_form l.now) m }
{
    match l.relation {
        Relation::Positive => Some(m),
        Relation::Multiple(d) | Relation::NoMultiple(d) => {
            if coefficient(&l.sum, x) == 0 {
                Some(m)
            } else {
                lcm_within(m, d, budget)
            }
        }
    }
}

// The least common multiple of `m` and the divisors of the literals with `x`, if it is at most `budget`.
#[cycle(periods)]
pub(crate) fn period(f: &Nnf, x: Var, m: u64, budget: u64) -> Option<u64>
    requires positive { 0 < m }
    requires within { m ≤ budget }
    requires small { budget < 2 ^ 31 }
    ensures value { IfSome result (IsPeriod budget (period (place x) (form_of f.now) m)) }
    ensures over { result ≡ None → HasPositive (form_of f.now) → budget < period (place x) (form_of f.now) m }
{
    match f {
        Nnf::Truth(_) => Some(m),
        Nnf::Literal(l) => period_with(m, l, x, budget),
        Nnf::Joined(_, fs) => period_of_all(fs.as_slice(), x, m, budget),
    }
}

#[cycle(periods)]
fn period_of_all(fs: &[Nnf], x: Var, m: u64, budget: u64) -> Option<u64>
    requires positive { 0 < m }
    requires within { m ≤ budget }
    requires small { budget < 2 ^ 31 }
    ensures value { IfSome result (IsPeriod budget (period_of_all (place x) fs.now m)) }
    ensures over { result ≡ None → AllPositive fs.now → budget < period_of_all (place x) fs.now m }
{
    let mut multiple = m;
    for f in fs {
        match period(f, x, multiple, budget) {
            Some(next) => multiple = next,
            None => return None,
        }
    }
    Some(multiple)
}
