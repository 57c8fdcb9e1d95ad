//! How many comparisons a reduction has, counted before it is made. A count that passes `most` is `most`.

ghost use Rattle.std.specs.Prelude.{◌≡◌, ◌+◌, ◌*◌, ◌<◌, ◌≤◌, ◌^◌, true, min};
ghost use Rattle.hs_pure.specs.Assertion.{bag_term_of, assertion_of};
ghost use Rattle.hs_bag_parts.specs.Size.{bag_comparisons, times_stated, comparisons_of, all_comparisons, reduced_of, all_reduced};

use crate::capped::capped;
use hs_pure::{Bag, Pure};

fn times(w: u64, n: u64, most: u64) -> u64
    requires width { w < 2 ^ 32 }
    requires n { n ≤ most }
    requires most { most ≤ 2 ^ 31 }
    ensures { result ≡ min (w * n) most }
{
    capped(w * n, most)
}

fn times_stated(w: u64, asserted: bool, n: u64, most: u64) -> u64
    requires width { w < 2 ^ 32 }
    requires n { n ≤ most }
    requires most { most ≤ 2 ^ 31 }
    ensures { result ≡ min (times_stated w asserted n) most }
{
    if asserted { times(w, n, most) } else { n }
}

fn bag_comparisons(b: &Bag, most: u64) -> u64
    requires { most ≤ 2 ^ 31 }
    ensures { result ≡ min (bag_comparisons (bag_term_of b.now)) most }
{
    match b {
        Bag::Empty => 0,
        Bag::Name(_) => 0,
        Bag::One(_) => capped(4, most),
        Bag::Union(a, b) => {
            let parts = bag_comparisons(a.get(), most) + bag_comparisons(b.get(), most);
            capped(parts + 1, most)
        }
        Bag::Inter(a, b) => {
            let parts = bag_comparisons(a.get(), most) + bag_comparisons(b.get(), most);
            capped(parts + 4, most)
        }
        Bag::Diff(a, b) => {
            let parts = bag_comparisons(a.get(), most) + bag_comparisons(b.get(), most);
            capped(parts + 4, most)
        }
    }
}

#[cycle(comparisons)]
fn comparisons(p: &Pure, most: u64) -> u64
    requires { most ≤ 2 ^ 31 }
    ensures { result ≡ min (comparisons_of p.now) most }
{
    match p {
        Pure::Eq(_, _) => capped(1, most),
        Pure::Lt(_, _) => capped(1, most),
        Pure::Le(_, _) => capped(1, most),
        Pure::Not(p) => comparisons(p.get(), most),
        Pure::And(ps) => all_comparisons(ps.as_slice(), most),
        Pure::Or(ps) => all_comparisons(ps.as_slice(), most),
        Pure::Divides(_, _)
        | Pure::BagEq(_, _)
        | Pure::Subset(_, _)
        | Pure::Member(_, _)
        | Pure::AllOf(_, _, _)
        | Pure::Exists(_, _)
        | Pure::Forall(_, _) => 0,
    }
}

#[cycle(comparisons)]
fn all_comparisons(ps: &[Pure], most: u64) -> u64
    requires { most ≤ 2 ^ 31 }
    ensures { result ≡ min (all_comparisons ps.now) most }
{
    let mut count = 0;
    for p in ps {
        count = capped(count + comparisons(p, most), most);
    }
    count
}

// Two bags that are compared.
fn compared(w: u64, asserted: bool, a: &Bag, b: &Bag, most: u64) -> u64
    requires width { w < 2 ^ 32 }
    requires most { most ≤ 2 ^ 31 }
    ensures { result ≡ min (w * (bag_comparisons (bag_term_of a.now) + bag_comparisons (bag_term_of b.now)) + times_stated w asserted 1) most }
{
    let parts = capped(bag_comparisons(a, most) + bag_comparisons(b, most), most);
    let defined = times(w, parts, most);
    let one = capped(1, most);
    let literal = times_stated(w, asserted, one, most);
    capped(defined + literal, most)
}

// A literal of n comparisons on one bag.
fn stated(w: u64, asserted: bool, b: &Bag, n: u64, most: u64) -> u64
    requires width { w < 2 ^ 32 }
    requires n { n ≤ most }
    requires most { most ≤ 2 ^ 31 }
    ensures { result ≡ min (w * bag_comparisons (bag_term_of b.now) + times_stated w asserted n) most }
{
    let defined = times(w, bag_comparisons(b, most), most);
    let literal = times_stated(w, asserted, n, most);
    capped(defined + literal, most)
}

#[cycle(sizing)]
fn reduced(w: u64, asserted: bool, p: &Pure, most: u64) -> u64
    requires width { w < 2 ^ 32 }
    requires most { most ≤ 2 ^ 31 }
    ensures { result ≡ min (reduced_of w asserted p.now) most }
{
    match p {
        Pure::BagEq(a, b) => compared(w, asserted, a, b, most),
        Pure::Subset(a, b) => compared(w, asserted, a, b, most),
        Pure::Member(_, b) => stated(w, false, b, capped(1, most), most),
        Pure::AllOf(_, b, p) => stated(
            w,
            asserted,
            b,
            capped(1 + comparisons(p.get(), most), most),
            most,
        ),
        Pure::Not(p) => reduced(w, !asserted, p.get(), most),
        Pure::And(ps) => all_reduced(w, asserted, ps.as_slice(), most),
        Pure::Or(ps) => all_reduced(w, asserted, ps.as_slice(), most),
        Pure::Eq(_, _) => capped(1, most),
        Pure::Lt(_, _) => capped(1, most),
        Pure::Le(_, _) => capped(1, most),
        Pure::Divides(_, _) | Pure::Exists(_, _) | Pure::Forall(_, _) => 0,
    }
}

#[cycle(sizing)]
fn all_reduced(w: u64, asserted: bool, ps: &[Pure], most: u64) -> u64
    requires width { w < 2 ^ 32 }
    requires most { most ≤ 2 ^ 31 }
    ensures { result ≡ min (all_reduced w asserted ps.now) most }
{
    let mut count = 0;
    for p in ps {
        count = capped(count + reduced(w, asserted, p, most), most);
    }
    count
}

/// How many comparisons the reduction of a formula has, where there are `bags` bag variables and `w` element terms, or
/// `most` if there are more. Each count of a bag variable is compared with 0 and with those before it.
pub fn reduction_comparisons(bags: u64, w: u64, f: &Pure, most: u64) -> u64
    requires bags { bags < 2 ^ 32 }
    requires width { w < 2 ^ 32 }
    requires most { most ≤ 2 ^ 31 }
    ensures { result ≡ min (bags * (w * w) + reduced_of w true f.now) most }
{
    let some = capped(w, most);
    let row = times(w, some, most);
    let counts = times(bags, row, most);
    let literals = reduced(w, true, f, most);
    capped(counts + literals, most)
}
