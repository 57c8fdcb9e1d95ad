ghost use Rattle.std.specs.Prelude.{◌≡◌, ℤ, pos, false, ◌<◌, ◌+◌, ◌^◌, ◌+ℤ◌, ◌*ℤ◌, ◌≤ℤ◌, ◌↔◌, IsTrue, IfOk, OnOk, OnErr, map, FitsSigned};
ghost use mir.Syntax.{w128};
ghost use Rattle.std.specs.List.{All, Any, list_any};
ghost use Rattle.hs_pure.specs.Answer.{Tells, Gives};
ghost use Rattle.hs_pure.specs.Assertion.{assertion_of};
ghost use Rattle.hs_pure.specs.Eval.{found, found_bag, listed_count, stack_of, has_quantifiers, SumFits, NumbersFit};
ghost use Rattle.hs_pure.specs.Truth.{value, TrueAt};
ghost use Rattle.hs_pure.specs.Values.{number_of, listed, stack_at, count_of, CountFitsIn, CountsFit, IsAtMostIn, WithinFits, IsWithin, FormulaFits, Holds, FormulaFitsOf, HoldsOf, FormulaFitsIn, HoldsIn};

use crate::{Bag, Lin, Pure, Valuation, Var};
use sqlite_items::Items;
use std::cmp::min;

/// A number of an evaluation has more than 128 bits.
#[derive(Clone, Copy, Debug, PartialEq, Eq)]
pub struct Wide;

// What variables are worth: those of a valuation, and those that `AllOf` binds.
#[derive(Clone, Copy)]
enum Values<'a> {
    Given(&'a Valuation),
    With(Var, i128, &'a Values<'a>),
}

impl Values<'_> {
    fn number(&self, v: Var) -> i128
        ensures { result ≡ number_of self.now v }
    {
        match self {
            Values::Given(given) => number_in(given.numbers.as_slice(), v),
            Values::With(u, x, outer) => { if *u == v { *x } else { outer.number(v) } }
        }
    }

    fn bag(&self, v: Var) -> &[(i128, i128)]
        ensures { result.now ≡ listed self.now v }
    {
        match self {
            Values::Given(given) => bag_in(given.bags.as_slice(), v),
            Values::With(u, _, outer) => { if *u == v { &[] } else { outer.bag(v) } }
        }
    }
}

fn number_in(numbers: &[(Var, i128)], v: Var) -> i128
    ensures { result ≡ found numbers.now v }
{
    for pair in numbers {
        if pair.0 == v {
            return pair.1;
        }
    }
    0
}

fn bag_in(bags: &[(Var, Items<(i128, i128)>)], v: Var) -> &[(i128, i128)]
    ensures { result.now ≡ found_bag bags.now v }
{
    for pair in bags {
        if pair.0 == v {
            return pair.1.as_slice();
        }
    }
    &[]
}

fn product(a: i128, b: i128) -> Result<i128, Wide>
    ensures { Gives result (FitsSigned w128 (a *ℤ b)) (a *ℤ b) }
{
    match a.checked_mul(b) {
        Some(product) => Ok(product),
        None => Err(Wide),
    }
}

fn sum(a: i128, b: i128) -> Result<i128, Wide>
    ensures { Gives result (FitsSigned w128 (a +ℤ b)) (a +ℤ b) }
{
    match a.checked_add(b) {
        Some(sum) => Ok(sum),
        None => Err(Wide),
    }
}

impl Lin {
    fn eval(&self, values: &Values) -> Result<i128, Wide>
        ensures { Gives result (SumFits (stack_at values.now) self.now) (value (stack_at values.now) self.now) }
    {
        let mut total = 0;
        for t in self.terms.as_slice() {
            total = sum(total, product(t.1, values.number(t.0))?)?;
        }
        sum(total, self.constant)
    }
}

impl Bag {
    // How often `x` is in the bag.
    fn count(&self, x: i128, values: &Values) -> Result<u128, Wide>
        ensures { Gives result (CountFitsIn values.now self.now x) (count_of values.now self.now x) }
    {
        match self {
            Bag::Empty => Ok(0),
            Bag::Name(v) => Ok(count_in(values.bag(*v), x)),
            Bag::One(a) => {
                let value = a.eval(values)?;
                Ok(if value == x { 1 } else { 0 })
            }
            Bag::Union(a, b) => {
                let first = a.get().count(x, values)?;
                let second = b.get().count(x, values)?;
                count_sum(first, second)
            }
            Bag::Inter(a, b) => {
                let first = a.get().count(x, values)?;
                let second = b.get().count(x, values)?;
                Ok(min(first, second))
            }
            Bag::Diff(a, b) => {
                let first = a.get().count(x, values)?;
                let second = b.get().count(x, values)?;
                Ok(first.saturating_sub(second))
            }
        }
    }
}

// A sum of counts.
fn count_sum(a: u128, b: u128) -> Result<u128, Wide>
    ensures { Gives result (a + b < 2 ^ 127) (a + b) }
{
    match a.checked_add(b) {
        Some(sum) if sum < 1 << 127 => Ok(sum),
        _ => Err(Wide),
    }
}

fn count_in(elements: &[(i128, i128)], x: i128) -> u128
    ensures { result ≡ listed_count elements.now x }
{
    for element in elements {
        if element.0 == x {
            return if element.1 > 0 {
                element.1.unsigned_abs()
            } else {
                0
            };
        }
    }
    0
}

// Whether each element that `from` lists is at most as often in `a` as in `b`.
fn is_within(from: &Bag, a: &Bag, b: &Bag, values: &Values) -> Result<bool, Wide>
    ensures { Tells result (WithinFits values.now from.now a.now b.now) (IsWithin values.now from.now a.now b.now) }
{
    match from {
        Bag::Empty => Ok(true),
        Bag::Name(v) => all_within(values.bag(*v), a, b, values),
        Bag::One(x) => is_at_most(x.eval(values)?, a, b, values),
        Bag::Union(first, second) => {
            let first = is_within(first.get(), a, b, values)?;
            let second = is_within(second.get(), a, b, values)?;
            Ok(first & second)
        }
        Bag::Inter(first, second) => {
            let first = is_within(first.get(), a, b, values)?;
            let second = is_within(second.get(), a, b, values)?;
            Ok(first & second)
        }
        Bag::Diff(first, second) => {
            let first = is_within(first.get(), a, b, values)?;
            let second = is_within(second.get(), a, b, values)?;
            Ok(first & second)
        }
    }
}

fn all_within(elements: &[(i128, i128)], a: &Bag, b: &Bag, values: &Values) -> Result<bool, Wide>
    ensures { Tells result (All (λ p. CountsFit values.now a.now b.now p.0) elements.now) (All (λ p. IsAtMostIn values.now a.now b.now p.0) elements.now) }
{
    let mut all = true;
    for element in elements {
        all &= is_at_most(element.0, a, b, values)?;
    }
    Ok(all)
}

// Whether `x` is at most as often in `a` as in `b`.
fn is_at_most(x: i128, a: &Bag, b: &Bag, values: &Values) -> Result<bool, Wide>
    ensures { Tells result (CountsFit values.now a.now b.now x) (IsAtMostIn values.now a.now b.now x) }
{
    let first = a.count(x, values)?;
    let second = b.count(x, values)?;
    Ok(first <= second)
}

// Whether each count of `a` is at most that of `b`.
fn is_subset(a: &Bag, b: &Bag, values: &Values) -> Result<bool, Wide>
    ensures { Tells result ((x : ℤ) → CountsFit values.now a.now b.now x) ((x : ℤ) → IsAtMostIn values.now a.now b.now x) }
{
    let first = is_within(a, a, b, values)?;
    let second = is_within(b, a, b, values)?;
    Ok(first & second)
}

fn is_equal(a: &Bag, b: &Bag, values: &Values) -> Result<bool, Wide>
    ensures { Tells result ((x : ℤ) → CountsFit values.now a.now b.now x) ((x : ℤ) → count_of values.now a.now x ≡ count_of values.now b.now x) }
{
    let first = is_subset(a, b, values)?;
    let second = is_subset(b, a, values)?;
    Ok(first & second)
}

fn divides(d: i128, x: i128) -> bool
    ensures { IsTrue result ↔ ((pos 1 ≤ℤ d) × ((k : ℤ) × (x ≡ k *ℤ d))) }
{
    d >= 1 && x.unsigned_abs() % d.unsigned_abs() == 0
}

impl Pure {
    /// Whether the formula is true where variables are worth what `v` says. `Wide` comes where a product, a
    /// partial sum, a value or a count of the evaluation has more than 128 bits, and never else.
    pub fn eval(&self, v: &Valuation) -> Result<bool, Wide>
        requires no_quantifiers { has_quantifiers self.now ≡ false }
        ensures truth { IfOk result (λ b. IsTrue b ↔ TrueAt (stack_of v.now) self.now) }
        ensures fits { OnOk result (NumbersFit (stack_of v.now) (assertion_of self.now)) }
        ensures wide { OnErr result (¬ (NumbersFit (stack_of v.now) (assertion_of self.now))) }
    {
        holds(self, &Values::Given(v))
    }
}

#[cycle(holds)]
fn holds(p: &Pure, values: &Values) -> Result<bool, Wide>
    requires { has_quantifiers p.now ≡ false }
    ensures { Tells result (FormulaFits values.now p.now) (Holds values.now p.now) }
{
    match p {
        Pure::Eq(a, b) => {
            let a = a.eval(values)?;
            Ok(a == b.eval(values)?)
        }
        Pure::Lt(a, b) => {
            let a = a.eval(values)?;
            Ok(a < b.eval(values)?)
        }
        Pure::Le(a, b) => {
            let a = a.eval(values)?;
            Ok(a <= b.eval(values)?)
        }
        Pure::Divides(d, a) => Ok(divides(*d, a.eval(values)?)),
        Pure::BagEq(a, b) => is_equal(a, b, values),
        Pure::Subset(a, b) => is_subset(a, b, values),
        Pure::Member(a, b) => {
            let x = a.eval(values)?;
            Ok(b.count(x, values)? > 0)
        }
        Pure::AllOf(u, b, p) => holds_in(b, *u, b, p.get(), values),
        Pure::Not(p) => Ok(!holds(p.get(), values)?),
        Pure::And(ps) => all_hold(ps.as_slice(), values),
        Pure::Or(ps) => any_holds(ps.as_slice(), values),
        Pure::Exists(_, _) | Pure::Forall(_, _) => unreachable!(),
    }
}

#[cycle(holds)]
fn all_hold(ps: &[Pure], values: &Values) -> Result<bool, Wide>
    requires { list_any (λ b. b) (map has_quantifiers ps.now) ≡ false }
    ensures { Tells result (All (FormulaFits values.now) ps.now) (All (Holds values.now) ps.now) }
{
    let mut all = true;
    for p in ps {
        all &= holds(p, values)?;
    }
    Ok(all)
}

#[cycle(holds)]
fn any_holds(ps: &[Pure], values: &Values) -> Result<bool, Wide>
    requires { list_any (λ b. b) (map has_quantifiers ps.now) ≡ false }
    ensures { Tells result (All (FormulaFits values.now) ps.now) (Any (Holds values.now) ps.now) }
{
    let mut any = false;
    for p in ps {
        any |= holds(p, values)?;
    }
    Ok(any)
}

// Whether `p` holds, with x for `u`, of each element x of `b` that `from` lists.
#[cycle(holds)]
fn holds_in(from: &Bag, u: Var, b: &Bag, p: &Pure, values: &Values) -> Result<bool, Wide>
    requires { has_quantifiers p.now ≡ false }
    ensures { Tells result (FormulaFitsIn values.now from.now u b.now p.now) (HoldsIn values.now from.now u b.now p.now) }
{
    match from {
        Bag::Empty => Ok(true),
        Bag::Name(v) => holds_of_all(values.bag(*v), u, b, p, values),
        Bag::One(x) => holds_of(x.eval(values)?, u, b, p, values),
        Bag::Union(first, second) => {
            let first = holds_in(first.get(), u, b, p, values)?;
            let second = holds_in(second.get(), u, b, p, values)?;
            Ok(first & second)
        }
        Bag::Inter(first, second) => {
            let first = holds_in(first.get(), u, b, p, values)?;
            let second = holds_in(second.get(), u, b, p, values)?;
            Ok(first & second)
        }
        Bag::Diff(first, second) => {
            let first = holds_in(first.get(), u, b, p, values)?;
            let second = holds_in(second.get(), u, b, p, values)?;
            Ok(first & second)
        }
    }
}

#[cycle(holds)]
fn holds_of_all(
    elements: &[(i128, i128)],
    u: Var,
    b: &Bag,
    p: &Pure,
    values: &Values,
) -> Result<bool, Wide>
    requires { has_quantifiers p.now ≡ false }
    ensures { Tells result (All (λ e. FormulaFitsOf values.now u b.now p.now e.0) elements.now) (All (λ e. HoldsOf values.now u b.now p.now e.0) elements.now) }
{
    let mut all = true;
    for element in elements {
        all &= holds_of(element.0, u, b, p, values)?;
    }
    Ok(all)
}

// Whether `p` holds with `x` for `u`, if `x` is an element of `b`.
#[cycle(holds)]
fn holds_of(x: i128, u: Var, b: &Bag, p: &Pure, values: &Values) -> Result<bool, Wide>
    requires { has_quantifiers p.now ≡ false }
    ensures { Tells result (FormulaFitsOf values.now u b.now p.now x) (HoldsOf values.now u b.now p.now x) }
{
    if b.count(x, values)? > 0 {
        holds(p, &Values::With(u, x, values))
    } else {
        Ok(true)
    }
}
