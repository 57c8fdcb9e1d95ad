//! Equality of formulas, told without memory.

ghost use Rattle.std.specs.Prelude.{◌≡◌, ◌↔◌, IsTrue};

use crate::formula::{Atom, Disjunct, Formula};
use hs_pure::{Pure, Var};

impl Atom {
    /// Whether both are one atom. It takes no memory.
    pub fn same(&self, other: &Atom) -> bool
        ensures { IsTrue result ↔ (self.now ≡ other.now) }
    {
        self.root == other.root
            && self.of == other.of
            && same_vars(self.args.as_slice(), other.args.as_slice())
    }
}

impl Disjunct {
    /// Whether both are one disjunct. It takes no memory.
    pub fn same(&self, other: &Disjunct) -> bool
        ensures { IsTrue result ↔ (self.now ≡ other.now) }
    {
        same_vars(self.bound.as_slice(), other.bound.as_slice())
            && same_atoms(self.atoms.as_slice(), other.atoms.as_slice())
            && same_conjuncts(self.pure.as_slice(), other.pure.as_slice())
    }
}

impl Formula {
    /// Whether both are one formula. It takes no memory.
    pub fn same(&self, other: &Formula) -> bool
        ensures { IsTrue result ↔ (self.now ≡ other.now) }
    {
        same_cases(self.cases.as_slice(), other.cases.as_slice())
    }
}

fn same_vars(vs: &[Var], ws: &[Var]) -> bool
    ensures { IsTrue result ↔ (vs.now ≡ ws.now) }
{
    if vs.len() != ws.len() {
        return false;
    }
    for (v, w) in vs.iter().zip(ws) {
        if v != w {
            return false;
        }
    }
    true
}

fn same_atoms(atoms: &[Atom], others: &[Atom]) -> bool
    ensures { IsTrue result ↔ (atoms.now ≡ others.now) }
{
    if atoms.len() != others.len() {
        return false;
    }
    for (atom, other) in atoms.iter().zip(others) {
        if !atom.same(other) {
            return false;
        }
    }
    true
}

fn same_conjuncts(ps: &[Pure], qs: &[Pure]) -> bool
    ensures { IsTrue result ↔ (ps.now ≡ qs.now) }
{
    if ps.len() != qs.len() {
        return false;
    }
    for (p, q) in ps.iter().zip(qs) {
        if !p.same(q) {
            return false;
        }
    }
    true
}

fn same_cases(cases: &[Disjunct], others: &[Disjunct]) -> bool
    ensures { IsTrue result ↔ (cases.now ≡ others.now) }
{
    if cases.len() != others.len() {
        return false;
    }
    for (case, other) in cases.iter().zip(others) {
        if !case.same(other) {
            return false;
        }
    }
    true
}
