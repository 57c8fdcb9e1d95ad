//! Tests of the variables of formulas.

ghost use Rattle.std.specs.Prelude.{◌≡◌, map};
ghost use Rattle.std.specs.List.{list_any, list_all};
ghost use Rattle.hs_pure.specs.Occurs.{in_lin, in_bag};
ghost use Rattle.hs_heap.specs.Meaning.{is_in};
ghost use Rattle.hs_heap.specs.Variables.{in_atom};
ghost use Rattle.hs_goal.specs.Goal.{is_free_in_goal};
ghost use Rattle.hs_side_rules.specs.Splitting.{may_occur, all_in_sum, all_in_bag, all_in_formula};

use hs_goal::Goal;
use hs_heap::Atom;
use hs_pure::{Bag, Lin, Pure, Var};

pub fn is_listed(vs: &[Var], v: Var) -> bool
    ensures { result ≡ is_in v vs.now }
{
    for w in vs {
        if v == *w {
            return true;
        }
    }
    false
}

pub fn sum_has(a: &Lin, v: Var) -> bool
    ensures { result ≡ in_lin v a.now }
{
    a.terms.as_slice().iter().any(|t| t.0 == v)
}

pub fn bag_has(b: &Bag, v: Var) -> bool
    ensures { result ≡ in_bag v b.now }
{
    match b {
        Bag::Empty => false,
        Bag::Name(u) => *u == v,
        Bag::One(a) => sum_has(a, v),
        Bag::Union(a, b) => bag_has(a.get(), v) || bag_has(b.get(), v),
        Bag::Inter(a, b) => bag_has(a.get(), v) || bag_has(b.get(), v),
        Bag::Diff(a, b) => bag_has(a.get(), v) || bag_has(b.get(), v),
    }
}

fn goal_has(goal: &Goal, v: Var) -> bool
    ensures { result ≡ is_free_in_goal v goal.now }
{
    some_atom_has(goal.used.as_slice(), v) || goal.left.has(v) || goal.right.has(v)
}

fn some_atom_has(atoms: &[Atom], v: Var) -> bool
    ensures { result ≡ list_any (in_atom v) atoms.now }
{
    atoms.iter().any(|a| atom_has(a, v))
}

fn atom_has(a: &Atom, v: Var) -> bool
    ensures { result ≡ in_atom v a.now }
{
    v == a.root || is_listed(a.args.as_slice(), v)
}

// Whether a goal may be split by a formula `f` in which `v` occurs.
fn may_occur(goal: &Goal, f: &Pure, v: Var) -> bool
    ensures { result ≡ may_occur goal.now f.now v }
{
    v.number < goal.next && !is_listed(goal.opens.as_slice(), v) && (!f.has(v) || goal_has(goal, v))
}

fn all_in_sum(goal: &Goal, f: &Pure, a: &Lin) -> bool
    ensures { result ≡ all_in_sum (may_occur goal.now f.now) a.now }
{
    a.terms.as_slice().iter().all(|t| may_occur(goal, f, t.0))
}

fn all_in_bag(goal: &Goal, f: &Pure, b: &Bag) -> bool
    ensures { result ≡ all_in_bag (may_occur goal.now f.now) b.now }
{
    match b {
        Bag::Empty => true,
        Bag::Name(u) => may_occur(goal, f, *u),
        Bag::One(a) => all_in_sum(goal, f, a),
        Bag::Union(a, b) => all_in_bag(goal, f, a.get()) && all_in_bag(goal, f, b.get()),
        Bag::Inter(a, b) => all_in_bag(goal, f, a.get()) && all_in_bag(goal, f, b.get()),
        Bag::Diff(a, b) => all_in_bag(goal, f, a.get()) && all_in_bag(goal, f, b.get()),
    }
}

/// Whether each variable of `p`, bound or free, may occur in `f`.
#[cycle(variables)]
pub fn all_in_formula(p: &Pure, goal: &Goal, f: &Pure) -> bool
    ensures { result ≡ all_in_formula (may_occur goal.now f.now) p.now }
{
    match p {
        Pure::Eq(a, b) => all_in_sum(goal, f, a) && all_in_sum(goal, f, b),
        Pure::Lt(a, b) => all_in_sum(goal, f, a) && all_in_sum(goal, f, b),
        Pure::Le(a, b) => all_in_sum(goal, f, a) && all_in_sum(goal, f, b),
        Pure::Divides(_, a) => all_in_sum(goal, f, a),
        Pure::BagEq(a, b) => all_in_bag(goal, f, a) && all_in_bag(goal, f, b),
        Pure::Subset(a, b) => all_in_bag(goal, f, a) && all_in_bag(goal, f, b),
        Pure::Member(a, b) => all_in_sum(goal, f, a) && all_in_bag(goal, f, b),
        Pure::AllOf(u, b, p) => {
            all_in_bag(goal, f, b) && may_occur(goal, f, *u) && all_in_formula(p.get(), goal, f)
        }
        Pure::Not(p) => all_in_formula(p.get(), goal, f),
        Pure::And(ps) => all_in_members(ps.as_slice(), goal, f),
        Pure::Or(ps) => all_in_members(ps.as_slice(), goal, f),
        Pure::Exists(u, p) => may_occur(goal, f, *u) && all_in_formula(p.get(), goal, f),
        Pure::Forall(u, p) => may_occur(goal, f, *u) && all_in_formula(p.get(), goal, f),
    }
}

#[cycle(variables)]
fn all_in_members(ps: &[Pure], goal: &Goal, f: &Pure) -> bool
    ensures { result ≡ list_all (λ b. b) (map (all_in_formula (may_occur goal.now f.now)) ps.now) }
{
    for p in ps {
        if !all_in_formula(p, goal, f) {
            return false;
        }
    }
    true
}
