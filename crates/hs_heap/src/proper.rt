ghost use Rattle.std.specs.Prelude.{◌≡◌, ◌↔◌, IsTrue, map};
ghost use Rattle.hs_heap.specs.WellFormed.{IsProper};
ghost use Rattle.hs_heap.specs.Tests.{rises_from, bag_formed, formed, all_formed, plain_formed};

use crate::pures::is_ordered;
use hs_pure::{Bag, Lin, Pure};

/// Whether the kinds of the variables fit, the sums are in order, the connectives are in their normal form, and no
/// bag literal stands under a quantifier. It takes no memory.
pub fn is_proper(p: &Pure) -> bool
    ensures { IsTrue result ↔ IsProper p.now }
{
    plain_formed(p)
}

fn plain_formed(p: &Pure) -> bool
    ensures { result ≡ plain_formed p.now }
{
    p.bags_plain() && formed(p)
}

// The same but for bag literals under quantifiers.
#[cycle(forms)]
fn formed(p: &Pure) -> bool
    ensures { result ≡ formed p.now }
{
    match p {
        Pure::Eq(a, b) => sum_formed(a) && sum_formed(b),
        Pure::Lt(a, b) => sum_formed(a) && sum_formed(b),
        Pure::Le(a, b) => sum_formed(a) && sum_formed(b),
        Pure::Divides(_, a) => sum_formed(a),
        Pure::BagEq(a, b) => bag_formed(a) && bag_formed(b),
        Pure::Subset(a, b) => bag_formed(a) && bag_formed(b),
        Pure::Member(a, b) => sum_formed(a) && bag_formed(b),
        Pure::AllOf(u, b, p) => bag_formed(b) && !u.bag && formed(p.get()),
        Pure::Not(p) => formed(p.get()),
        Pure::And(ps) => all_formed(ps.as_slice()),
        Pure::Or(ps) => all_formed(ps.as_slice()),
        Pure::Exists(u, p) => !u.bag && formed(p.get()),
        Pure::Forall(u, p) => !u.bag && formed(p.get()),
    }
}

// The members of an `And` or `Or`, which are not exactly one.
#[cycle(forms)]
fn all_formed(ps: &[Pure]) -> bool
    ensures { result ≡ all_formed (map formed ps.now) }
{
    if ps.len() == 1 {
        return false;
    }
    for p in ps {
        if !formed(p) {
            return false;
        }
    }
    true
}

fn sum_formed(a: &Lin) -> bool
    ensures { result ≡ rises_from 0 a.now.terms }
{
    is_ordered(a.terms.as_slice())
}

fn bag_formed(b: &Bag) -> bool
    ensures { result ≡ bag_formed b.now }
{
    match b {
        Bag::Empty => true,
        Bag::Name(v) => v.bag,
        Bag::One(a) => sum_formed(a),
        Bag::Union(a, b) => bag_formed(a.get()) && bag_formed(b.get()),
        Bag::Inter(a, b) => bag_formed(a.get()) && bag_formed(b.get()),
        Bag::Diff(a, b) => bag_formed(a.get()) && bag_formed(b.get()),
    }
}
