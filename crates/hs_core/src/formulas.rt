ghost use Rattle.std.specs.Prelude.{◌≡◌};
ghost use Rattle.std.specs.List.{list_all};
ghost use Rattle.hs_heap.specs.Tests.{are_distinct, atom_alone_fits, atom_fits, bound_fits, conjunct_fits, disjunct_fits};
ghost use Rattle.hs_core.specs.Tests.{in_scope, formula_fits};

use crate::pures::{conjunct_fits, number_fits};
use crate::scope::{Scope, is_listed};
use hs_heap::{Atom, Defs, Disjunct, Formula};
use hs_pure::{Pure, Var};

// Whether a formula has a disjunct, and each of them is well formed, with its free variables in `free`, which it
// binds nowhere, and all of its numbers below `next`.
pub fn formula_fits(f: &Formula, defs: &Defs, free: &Scope, next: u32) -> bool
    ensures { result ≡ formula_fits defs.now (in_scope free.now) next f.now }
{
    1 <= f.cases.len() && disjuncts_fit(f.cases.as_slice(), defs, free, next)
}

fn disjuncts_fit(cases: &[Disjunct], defs: &Defs, free: &Scope, next: u32) -> bool
    ensures { result ≡ list_all (disjunct_fits defs.now (in_scope free.now) next) cases.now }
{
    cases.iter().all(|d| disjunct_fits(d, defs, free, next))
}

fn disjunct_fits(d: &Disjunct, defs: &Defs, free: &Scope, next: u32) -> bool
    ensures { result ≡ disjunct_fits defs.now (in_scope free.now) next d.now }
{
    let bound = d.bound.as_slice();
    let scope = Scope::WithAll(bound, &*free);
    are_distinct(bound)
        && bound_fits(bound, free, next)
        && atoms_fit(d.atoms.as_slice(), defs, &scope)
        && conjuncts_fit(d.pure.as_slice(), free, next, &scope)
}

pub fn are_distinct(vs: &[Var]) -> bool
    ensures { result ≡ are_distinct vs.now }
{
    match vs {
        [] => true,
        [v, rest @ ..] => !is_listed(rest, *v) && are_distinct(rest),
    }
}

fn bound_fits(bound: &[Var], free: &Scope, next: u32) -> bool
    ensures { result ≡ list_all (bound_fits (in_scope free.now) next) bound.now }
{
    bound.iter().all(|v| number_fits(*v, next) && !free.has(*v))
}

fn atoms_fit(atoms: &[Atom], defs: &Defs, scope: &Scope) -> bool
    ensures { result ≡ list_all (atom_fits defs.now (in_scope scope.now)) atoms.now }
{
    atoms.iter().all(|a| atom_fits(a, defs, scope))
}

fn atom_fits(a: &Atom, defs: &Defs, scope: &Scope) -> bool
    ensures { result ≡ atom_fits defs.now (in_scope scope.now) a.now }
{
    atom_alone_fits(a, defs) && scope.has(a.root) && are_in(a.args.as_slice(), scope)
}

fn atom_alone_fits(a: &Atom, defs: &Defs) -> bool
    ensures { result ≡ atom_alone_fits defs.now a.now }
{
    a.fits(defs)
}

fn are_in(vs: &[Var], scope: &Scope) -> bool
    ensures { result ≡ list_all (in_scope scope.now) vs.now }
{
    vs.iter().all(|v| scope.has(*v))
}

fn conjuncts_fit(ps: &[Pure], free: &Scope, next: u32, scope: &Scope) -> bool
    ensures { result ≡ list_all (conjunct_fits (in_scope free.now) next (in_scope scope.now)) ps.now }
{
    ps.iter().all(|p| conjunct_fits(p, free, next, scope))
}
