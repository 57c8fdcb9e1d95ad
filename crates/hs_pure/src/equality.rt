//! Equality of formulas, told without memory.

ghost use Rattle.std.specs.Prelude.{◌≡◌, ◌↔◌, IsTrue};

use crate::{Bag, Lin, Pure, Var};

fn same_terms(a: &[(Var, i128)], b: &[(Var, i128)]) -> bool
    ensures { IsTrue result ↔ (a.now ≡ b.now) }
{
    if a.len() != b.len() {
        return false;
    }
    for (t, u) in a.iter().zip(b) {
        if t.0 != u.0 || t.1 != u.1 {
            return false;
        }
    }
    true
}

impl Lin {
    /// Whether both are one sum. It takes no memory.
    pub fn same(&self, other: &Lin) -> bool
        ensures { IsTrue result ↔ (self.now ≡ other.now) }
    {
        self.constant == other.constant && same_terms(self.terms.as_slice(), other.terms.as_slice())
    }
}

impl Bag {
    /// Whether both are one bag expression. It takes no memory.
    pub fn same(&self, other: &Bag) -> bool
        ensures { IsTrue result ↔ (self.now ≡ other.now) }
    {
        match (self, other) {
            (Bag::Empty, Bag::Empty) => true,
            (Bag::Name(u), Bag::Name(v)) => u == v,
            (Bag::One(a), Bag::One(b)) => a.same(b),
            (Bag::Union(a, b), Bag::Union(c, d)) => a.get().same(c.get()) && b.get().same(d.get()),
            (Bag::Inter(a, b), Bag::Inter(c, d)) => a.get().same(c.get()) && b.get().same(d.get()),
            (Bag::Diff(a, b), Bag::Diff(c, d)) => a.get().same(c.get()) && b.get().same(d.get()),
            _ => false,
        }
    }
}

// Whether both bind one variable over one bag.
fn binds_same(u: Var, a: &Bag, v: Var, c: &Bag) -> bool
    ensures { IsTrue result ↔ ((u ≡ v) × (a.now ≡ c.now)) }
{
    u == v && a.same(c)
}

impl Pure {
    /// Whether both are one formula. It takes no memory.
    #[cycle(same)]
    pub fn same(&self, other: &Pure) -> bool
        ensures { IsTrue result ↔ (self.now ≡ other.now) }
    {
        match (self, other) {
            (Pure::Eq(a, b), Pure::Eq(c, d)) => a.same(c) && b.same(d),
            (Pure::Lt(a, b), Pure::Lt(c, d)) => a.same(c) && b.same(d),
            (Pure::Le(a, b), Pure::Le(c, d)) => a.same(c) && b.same(d),
            (Pure::Divides(k, a), Pure::Divides(l, c)) => k == l && a.same(c),
            (Pure::BagEq(a, b), Pure::BagEq(c, d)) => a.same(c) && b.same(d),
            (Pure::Subset(a, b), Pure::Subset(c, d)) => a.same(c) && b.same(d),
            (Pure::Member(a, b), Pure::Member(c, d)) => a.same(c) && b.same(d),
            (Pure::AllOf(u, a, p), Pure::AllOf(v, c, q)) => {
                binds_same(*u, a, *v, c) && p.get().same(q.get())
            }
            (Pure::Not(p), Pure::Not(q)) => p.get().same(q.get()),
            (Pure::And(ps), Pure::And(qs)) => same_all(ps.as_slice(), qs.as_slice()),
            (Pure::Or(ps), Pure::Or(qs)) => same_all(ps.as_slice(), qs.as_slice()),
            (Pure::Exists(u, p), Pure::Exists(v, q)) => u == v && p.get().same(q.get()),
            (Pure::Forall(u, p), Pure::Forall(v, q)) => u == v && p.get().same(q.get()),
            _ => false,
        }
    }
}

#[cycle(same)]
fn same_all(ps: &[Pure], qs: &[Pure]) -> bool
    ensures { IsTrue result ↔ (ps.now ≡ qs.now) }
{
    if ps.len() != qs.len() {
        return false;
    }
    for (p, q) in ps.iter().zip(qs) {
        if !p.same(q) {
            return false;
        }
    }
    true
}
