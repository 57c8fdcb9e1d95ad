//! Formulas in which no variable occurs.

ghost use Rattle.std.specs.Prelude.{◌≡◌, map};
ghost use Rattle.std.specs.List.{list_all};
ghost use Rattle.hs_goal.specs.Closed.{sum_is_closed, bag_is_closed, is_closed};

use hs_pure::{Bag, Lin, Pure};

fn sum_is_closed(a: &Lin) -> bool
    ensures { result ≡ sum_is_closed a.now }
{
    a.terms.is_empty()
}

fn bag_is_closed(b: &Bag) -> bool
    ensures { result ≡ bag_is_closed b.now }
{
    match b {
        Bag::Empty => true,
        Bag::Name(_) => false,
        Bag::One(a) => sum_is_closed(a),
        Bag::Union(a, b) => bag_is_closed(a.get()) && bag_is_closed(b.get()),
        Bag::Inter(a, b) => bag_is_closed(a.get()) && bag_is_closed(b.get()),
        Bag::Diff(a, b) => bag_is_closed(a.get()) && bag_is_closed(b.get()),
    }
}

// Whether no variable occurs, bound or free.
#[cycle(closed)]
pub fn is_closed(p: &Pure) -> bool
    ensures { result ≡ is_closed p.now }
{
    match p {
        Pure::Eq(a, b) => sum_is_closed(a) && sum_is_closed(b),
        Pure::Lt(a, b) => sum_is_closed(a) && sum_is_closed(b),
        Pure::Le(a, b) => sum_is_closed(a) && sum_is_closed(b),
        Pure::Divides(_, a) => sum_is_closed(a),
        Pure::BagEq(a, b) => bag_is_closed(a) && bag_is_closed(b),
        Pure::Subset(a, b) => bag_is_closed(a) && bag_is_closed(b),
        Pure::Member(a, b) => sum_is_closed(a) && bag_is_closed(b),
        Pure::AllOf(_, _, _) => false,
        Pure::Not(p) => is_closed(p.get()),
        Pure::And(ps) => all_closed(ps.as_slice()),
        Pure::Or(ps) => all_closed(ps.as_slice()),
        Pure::Exists(_, _) => false,
        Pure::Forall(_, _) => false,
    }
}

#[cycle(closed)]
fn all_closed(ps: &[Pure]) -> bool
    ensures { result ≡ list_all (λ p. p) (map is_closed ps.now) }
{
    for p in ps {
        if !is_closed(p) {
            return false;
        }
    }
    true
}
