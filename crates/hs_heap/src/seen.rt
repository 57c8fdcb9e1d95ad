ghost use Rattle.std.specs.Prelude.{◌≡◌, IfOk, replicate};
ghost use Rattle.hs_heap.specs.Seen.{nothing_seen, seen_with, marked, mark_vars, mark_lin, mark_bag, mark_pure, mark_atom, mark_atoms, mark_conjuncts, mark_disjunct, mark_cases, mark_each};
ghost use Rattle.std.specs.Prelude.{map};

use crate::formula::{Atom, Disjunct};
use hs_pure::{Bag, Lin, NoMemory, Pure, Var};
use std::alloc::Global;

// Which variables of a number occur: the number variable, the bag variable.
#[derive(Clone, Copy)]
pub struct Seen {
    pub number: bool,
    pub bag: bool,
}

impl Seen {
    fn with(self, bag: bool) -> Seen
        ensures { result ≡ seen_with bag self }
    {
        if bag {
            Seen {
                number: self.number,
                bag: true,
            }
        } else {
            Seen {
                number: true,
                bag: self.bag,
            }
        }
    }
}

// A table of the numbers below `count`, in which nothing is marked.
pub fn unseen(alloc: Global, count: usize) -> Result<Vec<Seen>, NoMemory>
    ensures { IfOk result (λ all. all.items ≡ replicate count nothing_seen) }
{
    let mut all = Vec::new(alloc);
    let mut number = 0;
    while number < count {
        all.push(Seen {
            number: false,
            bag: false,
        })?;
        number += 1;
    }
    Ok(all)
}

fn mark(seen: &mut [Seen], v: Var)
    ensures { seen.new ≡ marked v seen.old }
{
    let place = v.number as usize;
    if place < seen.len() {
        seen[place] = seen[place].with(v.bag);
    }
}

// Marks what occurs in the disjuncts, bound or free.
pub fn mark_cases(seen: &mut [Seen], cases: &[Disjunct])
    ensures { seen.new ≡ mark_cases cases.now seen.old }
{
    for case in cases {
        mark_disjunct(seen, case);
    }
}

pub fn mark_disjunct(seen: &mut [Seen], d: &Disjunct)
    ensures { seen.new ≡ mark_disjunct d.now seen.old }
{
    mark_vars(seen, d.bound.as_slice());
    mark_atoms(seen, d.atoms.as_slice());
    mark_conjuncts(seen, d.pure.as_slice());
}

fn mark_vars(seen: &mut [Seen], vs: &[Var])
    ensures { seen.new ≡ mark_vars vs.now seen.old }
{
    for v in vs {
        mark(seen, *v);
    }
}

fn mark_atom(seen: &mut [Seen], a: &Atom)
    ensures { seen.new ≡ mark_atom a.now seen.old }
{
    mark(seen, a.root);
    mark_vars(seen, a.args.as_slice());
}

fn mark_atoms(seen: &mut [Seen], atoms: &[Atom])
    ensures { seen.new ≡ mark_atoms atoms.now seen.old }
{
    for atom in atoms {
        mark_atom(seen, atom);
    }
}

fn mark_conjuncts(seen: &mut [Seen], ps: &[Pure])
    ensures { seen.new ≡ mark_conjuncts ps.now seen.old }
{
    for p in ps {
        mark_pure(seen, p);
    }
}

// Marks what occurs in a pure formula, bound or free.
#[cycle(marks)]
pub fn mark_pure(seen: &mut [Seen], p: &Pure)
    ensures { seen.new ≡ mark_pure p.now seen.old }
{
    match p {
        Pure::Eq(a, b) => {
            mark_lin(seen, a);
            mark_lin(seen, b);
        }
        Pure::Lt(a, b) => {
            mark_lin(seen, a);
            mark_lin(seen, b);
        }
        Pure::Le(a, b) => {
            mark_lin(seen, a);
            mark_lin(seen, b);
        }
        Pure::Divides(_, a) => mark_lin(seen, a),
        Pure::BagEq(a, b) => {
            mark_bag(seen, a);
            mark_bag(seen, b);
        }
        Pure::Subset(a, b) => {
            mark_bag(seen, a);
            mark_bag(seen, b);
        }
        Pure::Member(a, b) => {
            mark_lin(seen, a);
            mark_bag(seen, b);
        }
        Pure::AllOf(u, b, p) => {
            mark_bag(seen, b);
            mark(seen, *u);
            mark_pure(seen, p.get());
        }
        Pure::Not(p) => mark_pure(seen, p.get()),
        Pure::And(ps) => mark_pures(seen, ps.as_slice()),
        Pure::Or(ps) => mark_pures(seen, ps.as_slice()),
        Pure::Exists(u, p) => {
            mark(seen, *u);
            mark_pure(seen, p.get());
        }
        Pure::Forall(u, p) => {
            mark(seen, *u);
            mark_pure(seen, p.get());
        }
    }
}

#[cycle(marks)]
fn mark_pures(seen: &mut [Seen], ps: &[Pure])
    ensures { seen.new ≡ mark_each (map mark_pure ps.now) seen.old }
{
    for p in ps {
        mark_pure(seen, p);
    }
}

fn mark_lin(seen: &mut [Seen], a: &Lin)
    ensures { seen.new ≡ mark_lin a.now seen.old }
{
    for t in a.terms.as_slice() {
        mark(seen, t.0);
    }
}

fn mark_bag(seen: &mut [Seen], b: &Bag)
    ensures { seen.new ≡ mark_bag b.now seen.old }
{
    match b {
        Bag::Empty => {}
        Bag::Name(v) => mark(seen, *v),
        Bag::One(a) => mark_lin(seen, a),
        Bag::Union(a, b) => {
            mark_bag(seen, a.get());
            mark_bag(seen, b.get());
        }
        Bag::Inter(a, b) => {
            mark_bag(seen, a.get());
            mark_bag(seen, b.get());
        }
        Bag::Diff(a, b) => {
            mark_bag(seen, a.get());
            mark_bag(seen, b.get());
        }
    }
}
