//! Which variables occur, bound or free.

ghost use Rattle.std.specs.Prelude.{◌≡◌, map};
ghost use Rattle.std.specs.List.{list_any};
ghost use Rattle.hs_pure.specs.Occurs.{in_lin, in_bag, occurs};
ghost use Rattle.hs_heap.specs.Meaning.{is_in};
ghost use Rattle.hs_heap.specs.Variables.{in_atom, occurs_in_disjunct, occurs_in_formula};

use hs_heap::{Atom, Disjunct, Formula};
use hs_pure::{Bag, Lin, Pure, Var};

// Whether the variable occurs in a disjunct of the formula, bound or free.
pub fn occurs_in_formula(f: &Formula, v: Var) -> bool
    ensures { result ≡ occurs_in_formula v f.now }
{
    f.cases.as_slice().iter().any(|d| occurs_in_disjunct(d, v))
}

fn occurs_in_disjunct(d: &Disjunct, v: Var) -> bool
    ensures { result ≡ occurs_in_disjunct v d.now }
{
    is_listed(d.bound.as_slice(), v)
        || in_atoms(d.atoms.as_slice(), v)
        || in_conjuncts(d.pure.as_slice(), v)
}

fn in_atoms(atoms: &[Atom], v: Var) -> bool
    ensures { result ≡ list_any (in_atom v) atoms.now }
{
    atoms.iter().any(|a| in_atom(a, v))
}

fn in_conjuncts(ps: &[Pure], v: Var) -> bool
    ensures { result ≡ list_any (occurs v) ps.now }
{
    ps.iter().any(|p| occurs(p, v))
}

fn in_atom(a: &Atom, v: Var) -> bool
    ensures { result ≡ in_atom v a.now }
{
    v == a.root || is_listed(a.args.as_slice(), v)
}

pub fn is_listed(vs: &[Var], v: Var) -> bool
    ensures { result ≡ is_in v vs.now }
{
    for w in vs {
        if v == *w {
            return true;
        }
    }
    false
}

fn in_lin(a: &Lin, v: Var) -> bool
    ensures { result ≡ in_lin v a.now }
{
    a.terms.as_slice().iter().any(|t| t.0 == v)
}

fn in_bag(b: &Bag, v: Var) -> bool
    ensures { result ≡ in_bag v b.now }
{
    match b {
        Bag::Empty => false,
        Bag::Name(u) => *u == v,
        Bag::One(a) => in_lin(a, v),
        Bag::Union(a, b) => in_bag(a.get(), v) || in_bag(b.get(), v),
        Bag::Inter(a, b) => in_bag(a.get(), v) || in_bag(b.get(), v),
        Bag::Diff(a, b) => in_bag(a.get(), v) || in_bag(b.get(), v),
    }
}

#[cycle(occurs)]
fn occurs(p: &Pure, v: Var) -> bool
    ensures { result ≡ occurs v p.now }
{
    match p {
        Pure::Eq(a, b) => in_lin(a, v) || in_lin(b, v),
        Pure::Lt(a, b) => in_lin(a, v) || in_lin(b, v),
        Pure::Le(a, b) => in_lin(a, v) || in_lin(b, v),
        Pure::Divides(_, a) => in_lin(a, v),
        Pure::BagEq(a, b) => in_bag(a, v) || in_bag(b, v),
        Pure::Subset(a, b) => in_bag(a, v) || in_bag(b, v),
        Pure::Member(a, b) => in_lin(a, v) || in_bag(b, v),
        Pure::AllOf(u, b, p) => in_bag(b, v) || *u == v || occurs(p.get(), v),
        Pure::Not(p) => occurs(p.get(), v),
        Pure::And(ps) => any_occurs(ps.as_slice(), v),
        Pure::Or(ps) => any_occurs(ps.as_slice(), v),
        Pure::Exists(u, p) => *u == v || occurs(p.get(), v),
        Pure::Forall(u, p) => *u == v || occurs(p.get(), v),
    }
}

#[cycle(occurs)]
fn any_occurs(ps: &[Pure], v: Var) -> bool
    ensures { result ≡ list_any (λ b. b) (map (occurs v) ps.now) }
{
    for p in ps {
        if occurs(p, v) {
            return true;
        }
    }
    false
}
