//! Sums of variables, added up and divided. What a result is worth at every stack is all that is said of it.

ghost use Rattle.std.specs.Prelude.{◌≡◌, pos, negsuc, ◌+ℤ◌, ◌*ℤ◌, ◌≤ℤ◌, ◌<ℤ◌, IfOk, IfSome, OnOk};
ghost use Rattle.hs_pure.specs.Stack.{Stack};
ghost use Rattle.hs_pure.specs.Truth.{sum_at, value};

use crate::halt::Halt;
use hs_pure::{Lin, Var};
use hs_substitute::times_plus;
use sqlite_items::Items;
use std::alloc::Global;

// One more term, unless its coefficient is 0.
fn push_term(terms: &mut Items<(Var, i128)>, v: Var, c: i128) -> Result<(), Halt>
    ensures { OnOk result ((s : Stack) → sum_at s terms.new ≡ sum_at s terms.old +ℤ c *ℤ (s v).number) }
{
    if c != 0 {
        terms.push((v, c))?;
    }
    Ok(())
}

// `k` times the first sum, plus the second.
pub(crate) fn combined(alloc: Global, k: i128, a: &Lin, b: &Lin) -> Result<Lin, Halt>
    ensures { IfOk result (λ r. (s : Stack) → value s r ≡ k *ℤ value s a.now +ℤ value s b.now) }
{
    let sum = times_plus(alloc, k, a, b)?;
    Ok(sum)
}

// `c` divided by `g`, if it is a multiple.
fn exact_quotient(c: i128, g: i128) -> Option<i128>
    ensures { IfSome result (λ q. g *ℤ q ≡ c) }
{
    let Some(q) = c.checked_div(g) else {
        return None;
    };
    match g.checked_mul(q) {
        Some(product) if product == c => Some(q),
        _ => None,
    }
}

/// A number divided by another, rounded down, and what is left.
#[derive(Clone, Copy, Debug, PartialEq, Eq)]
pub(crate) struct Quotient {
    pub(crate) whole: i128,
    pub(crate) rest: i128,
}

// `c` divided by `g`.
pub(crate) fn divide(c: i128, g: i128) -> Option<Quotient>
    ensures { IfSome result (λ p. (c ≡ g *ℤ p.whole +ℤ p.rest) × (pos 0 ≤ℤ p.rest) × (p.rest <ℤ g)) }
{
    let Some(whole) = c.checked_div_euclid(g) else {
        return None;
    };
    let Some(product) = g.checked_mul(whole) else {
        return None;
    };
    let Some(rest) = c.checked_sub(product) else {
        return None;
    };
    if 0 <= rest && rest < g {
        Some(Quotient { whole, rest })
    } else {
        None
    }
}

// The terms divided by a divisor of their coefficients.
pub(crate) fn divided_terms(
    alloc: Global,
    g: i128,
    a: &[(Var, i128)],
) -> Result<Items<(Var, i128)>, Halt>
    ensures { IfOk result (λ ts. (s : Stack) → sum_at s a.now ≡ g *ℤ sum_at s ts) }
{
    let mut terms = Items::new(alloc);
    for t in a {
        match exact_quotient(t.1, g) {
            Some(q) => push_term(&mut terms, t.0, q)?,
            None => return Err(Halt::Spent),
        }
    }
    Ok(terms)
}

// The sum plus `d`.
pub(crate) fn shifted(alloc: Global, a: &Lin, d: i128) -> Result<Lin, Halt>
    ensures { IfOk result (λ r. (s : Stack) → value s r ≡ value s a.now +ℤ d) }
{
    let zero = Lin {
        terms: Items::new(alloc),
        constant: d,
    };
    combined(alloc, 1, a, &zero)
}

// `k` times the sum.
pub(crate) fn scaled(alloc: Global, k: i128, a: &Lin) -> Result<Lin, Halt>
    ensures { IfOk result (λ r. (s : Stack) → value s r ≡ k *ℤ value s a.now) }
{
    let zero = Lin {
        terms: Items::new(alloc),
        constant: 0,
    };
    combined(alloc, k, a, &zero)
}

// The sum with the other sign.
pub(crate) fn negated(alloc: Global, a: &Lin) -> Result<Lin, Halt>
    ensures { IfOk result (λ r. (s : Stack) → value s r ≡ negsuc 0 *ℤ value s a.now) }
{
    let zero = Lin {
        terms: Items::new(alloc),
        constant: 0,
    };
    combined(alloc, -1, a, &zero)
}
