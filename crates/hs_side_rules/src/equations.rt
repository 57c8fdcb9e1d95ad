//! Conjuncts that give the one open variable a value.

ghost use Rattle.std.specs.Prelude.{◌≡◌, ◌-ℤ◌};
ghost use Rattle.hs_pure.specs.declared.pure.Pure.TheVariants.{Eq};
ghost use Rattle.hs_pure.specs.Sums.{LinIsOrdered, IsOrdered};
ghost use Rattle.hs_rules.specs.Conditions.{coefficient};
ghost use Rattle.hs_side_rules.specs.Solving.{in_sums, first_with, is_only, is_unit, is_sum_equation, has_none, is_open_name, is_bag_equation, is_equation};

use crate::occurring::{bag_has, is_listed, sum_has};
use hs_pure::{Bag, Lin, Pure, Var};

/// Whether a formula in order is an equation that gives the one open variable a value.
pub fn is_equation(opens: &[Var], p: &Pure) -> bool
    requires { IsOrdered p.now }
    ensures { result ≡ is_equation opens.now p.now }
{
    match p {
        Pure::Eq(a, b) => is_sum_equation(opens, a, b),
        Pure::BagEq(a, b) => is_bag_equation(opens, a, b),
        _ => false,
    }
}

fn is_sum_equation(opens: &[Var], a: &Lin, b: &Lin) -> bool
    requires { IsOrdered (Eq a.now b.now) }
    ensures { result ≡ is_sum_equation opens.now a.now b.now }
{
    let Some(v) = first_open(opens, a, b) else {
        return false;
    };
    is_only(opens, a, b, v) && differ_by_one(coefficient(a, v), coefficient(b, v))
}

fn in_sums(a: &Lin, b: &Lin, v: Var) -> bool
    ensures { result ≡ in_sums a.now b.now v }
{
    sum_has(a, v) || sum_has(b, v)
}

// The first open variable that occurs in one of the sums.
fn first_open(opens: &[Var], a: &Lin, b: &Lin) -> Option<Var>
    ensures { result ≡ first_with (in_sums a.now b.now) opens.now }
{
    for v in opens {
        if in_sums(a, b, *v) {
            return Some(*v);
        }
    }
    None
}

// Whether no other open variable occurs in the sums.
fn is_only(opens: &[Var], a: &Lin, b: &Lin, v: Var) -> bool
    ensures { result ≡ is_only (in_sums a.now b.now) v opens.now }
{
    opens.iter().all(|w| *w == v || !in_sums(a, b, *w))
}

fn differ_by_one(x: i128, y: i128) -> bool
    ensures { result ≡ is_unit (x -ℤ y) }
{
    match x.checked_sub(y) {
        Some(difference) => difference == 1 || difference == -1,
        None => false,
    }
}

// A sum in order has at most one term of the variable.
fn coefficient(a: &Lin, v: Var) -> i128
    requires { LinIsOrdered a.now }
    ensures { result ≡ coefficient v a.now }
{
    for t in a.terms.as_slice() {
        if t.0 == v {
            return t.1;
        }
    }
    0
}

fn is_bag_equation(opens: &[Var], a: &Bag, b: &Bag) -> bool
    ensures { result ≡ is_bag_equation opens.now a.now b.now }
{
    is_open_name(opens, a) && has_none(opens, b) || is_open_name(opens, b) && has_none(opens, a)
}

fn is_open_name(opens: &[Var], b: &Bag) -> bool
    ensures { result ≡ is_open_name opens.now b.now }
{
    match b {
        Bag::Name(v) => is_listed(opens, *v),
        _ => false,
    }
}

fn has_none(opens: &[Var], b: &Bag) -> bool
    ensures { result ≡ has_none opens.now b.now }
{
    opens.iter().all(|v| !bag_has(b, *v))
}
