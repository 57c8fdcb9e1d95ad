//! Which variables are free in a formula, in a table by number.

ghost use Rattle.std.specs.Prelude.{◌≡◌, ◌<◌, IfOk, OnOk, map, replicate};
ghost use Rattle.hs_pure.specs.declared.var.Var.{Var as Variable};
ghost use Rattle.hs_heap.specs.Variables.{is_free_in_formula};
ghost use Rattle.hs_norm_item.specs.Free as spec;

use hs_heap::{Atom, Disjunct, Formula};
use hs_pure::{Bag, Lin, NoMemory, Pure, Var};
use sqlite_items::Items;
use std::alloc::Global;

// Which variables of a number are free: the number variable, the bag variable.
#[derive(Clone, Copy)]
pub struct Free {
    pub number: bool,
    pub bag: bool,
}

impl Free {
    fn kind(self, bag: bool) -> bool
        ensures { result ≡ spec.kind_of bag self }
    {
        if bag { self.bag } else { self.number }
    }

    fn with(self, bag: bool, free: bool) -> Free
        ensures { result ≡ spec.with_kind bag free self }
    {
        if bag {
            Free {
                number: self.number,
                bag: free,
            }
        } else {
            Free {
                number: free,
                bag: self.bag,
            }
        }
    }
}

/// The variables of numbers below `count` that are free in a formula. It goes through the formula once.
pub fn free_vars(alloc: Global, count: usize, f: &Formula) -> Result<Vec<Free>, NoMemory>
    ensures { IfOk result (λ free. (v : Variable) → v.number < count → spec.tells v free.items ≡ is_free_in_formula v f.now) }
{
    let mut free = none(alloc, count)?;
    mark_cases(alloc, &mut free, f.cases.as_slice())?;
    Ok(free)
}

// Whether the table tells that a variable is free.
pub fn tells(free: &[Free], v: Var) -> bool
    ensures { result ≡ spec.tells v free.now }
{
    let place = v.number as usize;
    if place < free.len() {
        free[place].kind(v.bag)
    } else {
        false
    }
}

// A table of the numbers below `count`, in which nothing is marked.
fn none(alloc: Global, count: usize) -> Result<Vec<Free>, NoMemory>
    ensures { IfOk result (λ all. all.items ≡ replicate count spec.nothing) }
{
    let mut all = Vec::new(alloc);
    for _number in 0..count {
        all.push(Free {
            number: false,
            bag: false,
        })?;
    }
    Ok(all)
}

fn put(free: &mut [Free], v: Var, is: bool)
    ensures { free.new ≡ spec.put v is free.old }
{
    let place = v.number as usize;
    if place < free.len() {
        free[place] = free[place].with(v.bag, is);
    }
}

fn mark_lin(free: &mut [Free], a: &Lin)
    ensures { free.new ≡ spec.mark_lin a.now free.old }
{
    for t in a.terms.as_slice() {
        put(free, t.0, true);
    }
}

fn mark_bag(free: &mut [Free], b: &Bag)
    ensures { free.new ≡ spec.mark_bag b.now free.old }
{
    match b {
        Bag::Empty => {}
        Bag::Name(v) => put(free, *v, true),
        Bag::One(a) => mark_lin(free, a),
        Bag::Union(a, b) => {
            mark_bag(free, a.get());
            mark_bag(free, b.get());
        }
        Bag::Inter(a, b) => {
            mark_bag(free, a.get());
            mark_bag(free, b.get());
        }
        Bag::Diff(a, b) => {
            mark_bag(free, a.get());
            mark_bag(free, b.get());
        }
    }
}

// Marks what is free in a pure formula.
#[cycle(marks)]
fn mark_pure(free: &mut [Free], p: &Pure)
    ensures { free.new ≡ spec.mark_pure p.now free.old }
{
    match p {
        Pure::Eq(a, b) => {
            mark_lin(free, a);
            mark_lin(free, b);
        }
        Pure::Lt(a, b) => {
            mark_lin(free, a);
            mark_lin(free, b);
        }
        Pure::Le(a, b) => {
            mark_lin(free, a);
            mark_lin(free, b);
        }
        Pure::Divides(_, a) => mark_lin(free, a),
        Pure::BagEq(a, b) => {
            mark_bag(free, a);
            mark_bag(free, b);
        }
        Pure::Subset(a, b) => {
            mark_bag(free, a);
            mark_bag(free, b);
        }
        Pure::Member(a, b) => {
            mark_lin(free, a);
            mark_bag(free, b);
        }
        Pure::AllOf(u, b, p) => {
            mark_bag(free, b);
            mark_under(free, *u, p.get());
        }
        Pure::Not(p) => mark_pure(free, p.get()),
        Pure::And(ps) => mark_pures(free, ps.as_slice()),
        Pure::Or(ps) => mark_pures(free, ps.as_slice()),
        Pure::Exists(u, p) => mark_under(free, *u, p.get()),
        Pure::Forall(u, p) => mark_under(free, *u, p.get()),
    }
}

#[cycle(marks)]
fn mark_pures(free: &mut [Free], ps: &[Pure])
    ensures { free.new ≡ spec.mark_each (map spec.mark_pure ps.now) free.old }
{
    for p in ps {
        mark_pure(free, p);
    }
}

// Marks what is free in a formula beside the variable that is bound there.
#[cycle(marks)]
fn mark_under(free: &mut [Free], u: Var, p: &Pure)
    ensures { free.new ≡ spec.under u (spec.mark_pure p.now) free.old }
{
    let before = tells(free, u);
    mark_pure(free, p);
    put(free, u, before);
}

fn mark_vars(free: &mut [Free], vs: &[Var])
    ensures { free.new ≡ spec.mark_vars vs.now free.old }
{
    for v in vs {
        put(free, *v, true);
    }
}

fn mark_atom(free: &mut [Free], a: &Atom)
    ensures { free.new ≡ spec.mark_atom a.now free.old }
{
    put(free, a.root, true);
    mark_vars(free, a.args.as_slice());
}

fn mark_atoms(free: &mut [Free], atoms: &[Atom])
    ensures { free.new ≡ spec.mark_atoms atoms.now free.old }
{
    for atom in atoms {
        mark_atom(free, atom);
    }
}

fn mark_conjuncts(free: &mut [Free], ps: &[Pure])
    ensures { free.new ≡ spec.mark_conjuncts ps.now free.old }
{
    for p in ps {
        mark_pure(free, p);
    }
}

// Lets the table tell of these variables what it told before.
fn restore(free: &mut [Free], before: &[Free], vs: &[Var])
    ensures { free.new ≡ spec.restored before.now vs.now free.old }
{
    for v in vs {
        put(free, *v, tells(before, *v));
    }
}

fn mark_disjunct(alloc: Global, free: &mut [Free], d: &Disjunct) -> Result<(), NoMemory>
    ensures { OnOk result (free.new ≡ spec.mark_disjunct d.now free.old) }
{
    let before = Items::from_slice(alloc, free)?;
    mark_atoms(free, d.atoms.as_slice());
    mark_conjuncts(free, d.pure.as_slice());
    restore(free, before.as_slice(), d.bound.as_slice());
    Ok(())
}

fn mark_cases(alloc: Global, free: &mut [Free], cases: &[Disjunct]) -> Result<(), NoMemory>
    ensures { OnOk result (free.new ≡ spec.mark_cases cases.now free.old) }
{
    for case in cases {
        mark_disjunct(alloc, free, case)?;
    }
    Ok(())
}
