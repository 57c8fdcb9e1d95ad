//! Which goals are well formed.

ghost use Rattle.std.specs.Prelude.{◌≡◌, ◌↔◌, IfOk, IsTrue};
ghost use Rattle.std.specs.List.{list_all, list_any, All};
ghost use Rattle.hs_heap.specs.Variables.{in_atom, occurs_in_disjunct};
ghost use Rattle.hs_heap.specs.Sound.{AtomFits, AreDistinct};
ghost use Rattle.hs_goal.specs.Shape.{AreBelow, CaseFits, SideFits, GoalFits};
ghost use Rattle.hs_goal.specs.Parts.{UsedFits, ConjunctFits, OpenFits, NamesFit, ItemsFit, OpensFit, OwnPartsFit, SidesFit, PartsFit, vars_are_below, atom_is_below};
ghost use Rattle.hs_goal.specs.Closed.{is_closed, case_is_closed};

use crate::closed::is_closed;
use crate::goal::Goal;
use crate::lists::is_listed;
use hs_heap::{Atom, Defs, Disjunct, Formula, is_proper};
use hs_pure::{NoMemory, Pure, Var};
use std::alloc::Global;

const MAX_NEXT: u32 = 1 << 30;

impl Goal {
    /// Whether the goal is well formed over the definitions: its sides fit, `next` is at most 2^30 and above all
    /// numbers, the open variables are distinct and occur neither among the used atoms nor free on the left, and
    /// the right side has a disjunct.
    pub fn shape(&self, _alloc: Global, defs: &Defs) -> Result<bool, NoMemory>
        ensures exact { IfOk result (λ b. IsTrue b ↔ GoalFits defs.now self.now) }
    {
        Ok(self.fits(defs))
    }

    fn fits(&self, defs: &Defs) -> bool
        ensures { IsTrue result ↔ GoalFits defs.now self.now }
    {
        if self.next > MAX_NEXT {
            return false;
        }
        if self.right.cases.is_empty() {
            return false;
        }
        self.parts_fit(defs)
    }

    fn parts_fit(&self, defs: &Defs) -> bool
        ensures { IsTrue result ↔ PartsFit defs.now self.now }
    {
        self.own_parts_fit(defs) && self.sides_fit(defs)
    }

    fn own_parts_fit(&self, defs: &Defs) -> bool
        ensures { IsTrue result ↔ OwnPartsFit defs.now self.now }
    {
        used_fit(defs, self.next, self.used.as_slice()) && self.opens_fit()
    }

    fn sides_fit(&self, defs: &Defs) -> bool
        ensures { IsTrue result ↔ SidesFit defs.now self.now }
    {
        side_fits(defs, self.next, &self.left) && side_fits(defs, self.next, &self.right)
    }

    fn opens_fit(&self) -> bool
        ensures { IsTrue result ↔ OpensFit self.now }
    {
        are_distinct(self.opens.as_slice()) && self.all_open(self.opens.as_slice())
    }

    fn all_open(&self, vs: &[Var]) -> bool
        ensures { IsTrue result ↔ All (OpenFits self.now) vs.now }
    {
        vs.iter().all(|v| self.is_open(*v))
    }

    // Whether `v` may be open.
    fn is_open(&self, v: Var) -> bool
        ensures { IsTrue result ↔ OpenFits self.now v }
    {
        v.number < self.next && !some_atom_has(self.used.as_slice(), v) && !self.left.has(v)
    }
}

/// Whether each disjunct fits, as `case_fits` tells. It takes no memory.
pub fn side_fits(defs: &Defs, next: u32, f: &Formula) -> bool
    ensures exact { IsTrue result ↔ SideFits defs.now next f.now }
{
    cases_fit(defs, next, f.cases.as_slice())
}

fn cases_fit(defs: &Defs, next: u32, cases: &[Disjunct]) -> bool
    ensures { IsTrue result ↔ All (CaseFits defs.now next) cases.now }
{
    cases.iter().all(|d| case_fits(defs, next, d))
}

/// Whether all numbers, of bound variables too, are below `next`, each atom and each conjunct fits, the bound
/// variables are distinct, and no conjunct is an `And`. It takes no memory.
pub fn case_fits(defs: &Defs, next: u32, d: &Disjunct) -> bool
    ensures exact { IsTrue result ↔ CaseFits defs.now next d.now }
{
    names_fit(next, d) && items_fit(defs, d)
}

fn names_fit(next: u32, d: &Disjunct) -> bool
    ensures { IsTrue result ↔ NamesFit next d.now }
{
    is_below(next, d) && are_distinct(d.bound.as_slice())
}

fn items_fit(defs: &Defs, d: &Disjunct) -> bool
    ensures { IsTrue result ↔ ItemsFit defs.now d.now }
{
    atoms_fit(defs, d.atoms.as_slice()) && conjuncts_fit(d.pure.as_slice())
}

fn is_below(next: u32, d: &Disjunct) -> bool
    ensures { IsTrue result ↔ AreBelow next (λ v. occurs_in_disjunct v d.now) }
{
    if next == 0 {
        return has_no_variable(d);
    }
    d.top() < next
}

fn has_no_variable(d: &Disjunct) -> bool
    ensures { result ≡ case_is_closed d.now }
{
    if !d.bound.is_empty() {
        return false;
    }
    if !d.atoms.is_empty() {
        return false;
    }
    are_closed(d.pure.as_slice())
}

fn are_closed(ps: &[Pure]) -> bool
    ensures { result ≡ list_all is_closed ps.now }
{
    ps.iter().all(|p| is_closed(p))
}

fn atoms_fit(defs: &Defs, atoms: &[Atom]) -> bool
    ensures { IsTrue result ↔ All (AtomFits defs.now) atoms.now }
{
    atoms.iter().all(|a| a.fits(defs))
}

fn conjuncts_fit(ps: &[Pure]) -> bool
    ensures { IsTrue result ↔ All ConjunctFits ps.now }
{
    ps.iter().all(|p| conjunct_fits(p))
}

fn conjunct_fits(p: &Pure) -> bool
    ensures { IsTrue result ↔ ConjunctFits p.now }
{
    !matches!(p, Pure::And(_)) && is_proper(p)
}

fn used_fit(defs: &Defs, next: u32, atoms: &[Atom]) -> bool
    ensures { IsTrue result ↔ All (UsedFits defs.now next) atoms.now }
{
    atoms.iter().all(|a| is_used(defs, next, a))
}

// Whether the atom may be a used one.
fn is_used(defs: &Defs, next: u32, a: &Atom) -> bool
    ensures { IsTrue result ↔ UsedFits defs.now next a.now }
{
    a.fits(defs) && atom_is_below(next, a)
}

fn atom_is_below(next: u32, a: &Atom) -> bool
    ensures { result ≡ atom_is_below next a.now }
{
    a.root.number < next && vars_are_below(next, a.args.as_slice())
}

fn vars_are_below(next: u32, vs: &[Var]) -> bool
    ensures { result ≡ vars_are_below next vs.now }
{
    vs.iter().all(|v| v.number < next)
}

fn some_atom_has(atoms: &[Atom], v: Var) -> bool
    ensures { result ≡ list_any (in_atom v) atoms.now }
{
    atoms.iter().any(|a| atom_has(a, v))
}

fn atom_has(a: &Atom, v: Var) -> bool
    ensures { result ≡ in_atom v a.now }
{
    v == a.root || is_listed(a.args.as_slice(), v)
}

fn are_distinct(vs: &[Var]) -> bool
    ensures { IsTrue result ↔ AreDistinct vs.now }
{
    let mut rest = vs;
    while let [v, others @ ..] = rest {
        if is_listed(others, *v) {
            return false;
        }
        rest = others;
    }
    true
}
