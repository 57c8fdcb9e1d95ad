ghost use Rattle.std.specs.Prelude.{◌≡◌, ◌<◌, ◌≤◌, IsTrue};
ghost use Rattle.hs_heap.specs.Variables.{occurs_in_disjunct, occurs_in_formula, vars_top, atom_top, atoms_top, conjuncts_top, disjunct_top, disjuncts_top};

use crate::formula::{Atom, Disjunct, Formula};
use hs_pure::{Pure, Var};
use std::cmp::max;

impl Disjunct {
    /// The greatest number of a variable that occurs, bound or free. Where none occurs it is 0.
    pub fn top(&self) -> u32
        ensures value { result ≡ disjunct_top self.now }
        ensures bound { (v : Var) → IsTrue (occurs_in_disjunct v self.now) → v.number ≤ result }
        ensures reached { 0 < result → (v : Var) × (IsTrue (occurs_in_disjunct v self.now) × (v.number ≡ result)) }
    {
        self.greatest()
    }

    fn greatest(&self) -> u32
        ensures { result ≡ disjunct_top self.now }
    {
        let atoms = atoms_top(self.atoms.as_slice());
        let conjuncts = conjuncts_top(self.pure.as_slice());
        max(vars_top(self.bound.as_slice()), max(atoms, conjuncts))
    }
}

impl Formula {
    /// The greatest number of a variable that occurs, bound or free. Where none occurs it is 0.
    pub fn top(&self) -> u32
        ensures value { result ≡ disjuncts_top self.now.cases }
        ensures bound { (v : Var) → IsTrue (occurs_in_formula v self.now) → v.number ≤ result }
        ensures reached { 0 < result → (v : Var) × (IsTrue (occurs_in_formula v self.now) × (v.number ≡ result)) }
    {
        disjuncts_top(self.cases.as_slice())
    }
}

fn vars_top(vs: &[Var]) -> u32
    ensures { result ≡ vars_top vs.now }
{
    let mut top = 0;
    for v in vs {
        top = max(top, v.number);
    }
    top
}

fn atom_top(a: &Atom) -> u32
    ensures { result ≡ atom_top a.now }
{
    max(a.root.number, vars_top(a.args.as_slice()))
}

fn atoms_top(atoms: &[Atom]) -> u32
    ensures { result ≡ atoms_top atoms.now }
{
    let mut top = 0;
    for atom in atoms {
        top = max(top, atom_top(atom));
    }
    top
}

fn conjuncts_top(ps: &[Pure]) -> u32
    ensures { result ≡ conjuncts_top ps.now }
{
    let mut top = 0;
    for p in ps {
        top = max(top, p.top());
    }
    top
}

fn disjuncts_top(cases: &[Disjunct]) -> u32
    ensures { result ≡ disjuncts_top cases.now }
{
    let mut top = 0;
    for case in cases {
        top = max(top, case.greatest());
    }
    top
}
