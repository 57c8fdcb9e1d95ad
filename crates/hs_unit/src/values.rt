//! Values that make the left side of a unit question true and its right side false.

ghost use Rattle.std.specs.Prelude.{◌≡◌, ◌≤◌, ◌+◌, ◌^◌, ◌++◌, ◌*ℤ◌, ◌+ℤ◌, true, unsigned_abs, IfOk, OnOk, IfSome};
ghost use Rattle.hs_unit.specs.Sides.{forms};
ghost use Rattle.hs_unit.specs.Reduction.{is_small, all_small};
ghost use Rattle.hs_unit.specs.Settling.{is_settled, meets, chosen, raised, denied, worth, turned, pivot_value, pivot_values, values};

use crate::sides::Kind;
use hs_cooper_forms::coefficient;
use hs_pure::{Lin, NoMemory, Var};
use sqlite_items::Items;
use std::alloc::Global;

pub(crate) fn meets(kind: Kind, c: i128) -> bool
    ensures { result ≡ meets kind c }
{
    match kind {
        Kind::Zero => c == 0,
        Kind::Below => c < 0,
        Kind::Most => c <= 0,
    }
}

// Whether the form is a number as its kind says.
pub(crate) fn is_settled(kind: Kind, f: &Lin) -> bool
    ensures { result ≡ is_settled kind f.now.terms f.now.constant }
{
    f.terms.is_empty() && meets(kind, f.constant)
}

// The sign of the coefficient, times one more than the absolute constant.
fn chosen(c: i128, k: i128) -> i128
    requires { unsigned_abs k ≤ 2 ^ 60 }
    ensures value { result ≡ chosen c k }
    ensures near { unsigned_abs result ≤ 2 ^ 60 + 1 }
{
    let size = if k < 0 { -k } else { k };
    if c < 0 { -1 - size } else { size + 1 }
}

// The first variable of a form, with a value that makes the form positive where all others are 0.
fn raised(f: &Lin) -> Option<(Var, i128)>
    requires small { is_small f.now ≡ true }
    ensures term { result ≡ raised f.now.terms f.now.constant }
    ensures near { IfSome result (λ t. unsigned_abs t.1 ≤ 2 ^ 60 + 1) }
{
    let (t, _) = f.terms.as_slice().split_first()?;
    Some((t.0, chosen(t.1, f.constant)))
}

// That of the first form that is no number as its kind says.
pub(crate) fn denied(right: &[(Kind, Lin)]) -> Option<(Var, i128)>
    requires small { all_small (forms right.now) ≡ true }
    ensures term { result ≡ denied right.now }
    ensures near { IfSome result (λ t. unsigned_abs t.1 ≤ 2 ^ 60 + 1) }
{
    for c in right {
        if !is_settled(c.0, &c.1) {
            return raised(&c.1);
        }
    }
    None
}

// A small product and a small number.
fn product_plus(c: i128, y: i128, k: i128) -> i128
    requires factor { unsigned_abs c ≤ 2 ^ 60 }
    requires near { unsigned_abs y ≤ 2 ^ 60 + 1 }
    requires constant { unsigned_abs k ≤ 2 ^ 60 }
    ensures value { result ≡ c *ℤ y +ℤ k }
    ensures bound { unsigned_abs result ≤ 2 ^ 122 }
{
    c * y + k
}

// What a form is worth where the variable has the value, and all others are 0.
fn worth(e: Option<(Var, i128)>, f: &Lin) -> i128
    requires near { IfSome e (λ t. unsigned_abs t.1 ≤ 2 ^ 60 + 1) }
    requires small { is_small f.now ≡ true }
    ensures value { result ≡ worth e f.now }
    ensures bound { unsigned_abs result ≤ 2 ^ 122 }
{
    match e {
        Some((v, y)) => product_plus(coefficient(f, v), y, f.constant),
        None => f.constant,
    }
}

// What c * x + w = 0 makes x, where c is 1 or -1.
fn turned(c: i128, w: i128) -> i128
    requires { unsigned_abs w ≤ 2 ^ 122 }
    ensures { result ≡ turned c w }
{
    if c < 0 { w } else { -w }
}

// The variable that a form was solved for, with the value that makes the form 0.
fn push_value(
    all: &mut Items<(Var, i128)>,
    e: Option<(Var, i128)>,
    pivot: Option<(Var, i128)>,
    f: &Lin,
) -> Result<(), NoMemory>
    requires near { IfSome e (λ t. unsigned_abs t.1 ≤ 2 ^ 60 + 1) }
    requires small { is_small f.now ≡ true }
    ensures { OnOk result (all.new ≡ all.old ++ pivot_value e pivot f.now) }
{
    if let Some((x, c)) = pivot {
        all.push((x, turned(c, worth(e, f))))?;
    }
    Ok(())
}

// The variables that the forms were solved for, with the values that make the forms 0.
fn pivot_values(
    alloc: Global,
    e: Option<(Var, i128)>,
    pivots: &[Option<(Var, i128)>],
    forms: &[Lin],
) -> Result<Items<(Var, i128)>, NoMemory>
    requires near { IfSome e (λ t. unsigned_abs t.1 ≤ 2 ^ 60 + 1) }
    requires small { all_small forms.now ≡ true }
    ensures { IfOk result (λ vs. vs ≡ pivot_values e pivots.now forms.now) }
{
    let mut all = Items::new(alloc);
    let mut i = 0;
    'solved: while i < pivots.len() && i < forms.len() {
        push_value(&mut all, e, pivots[i], &forms[i])?;
        i += 1;
    }
    Ok(all)
}

// All values.
pub(crate) fn values(
    alloc: Global,
    e: Option<(Var, i128)>,
    pivots: &[Option<(Var, i128)>],
    forms: &[Lin],
) -> Result<Items<(Var, i128)>, NoMemory>
    requires near { IfSome e (λ t. unsigned_abs t.1 ≤ 2 ^ 60 + 1) }
    requires small { all_small forms.now ≡ true }
    ensures { IfOk result (λ vs. vs ≡ values e (pivot_values e pivots.now forms.now)) }
{
    let pivot_values = pivot_values(alloc, e, pivots, forms)?;
    let Some(first) = e else {
        return Ok(pivot_values);
    };
    let mut all = Items::new(alloc);
    all.push(first)?;
    all.append(pivot_values)?;
    Ok(all)
}
