//! The first fault of a case.

ghost use Rattle.std.specs.Prelude.{◌≡◌, ◌↔◌, IsTrue, IfOk, MatchOption};
ghost use Rattle.std.specs.List.{list_any};
ghost use Rattle.hs_wf.specs.Founded as spec;
ghost use Rattle.hs_wf.specs.Founded.{CaseIsFounded, HasOneRoot};
ghost use Rattle.hs_wf.specs.Faults.{IsCaseFault};
ghost use Rattle.hs_wf.specs.Marked as marked;

use crate::marks::Marks;
use crate::reached::reached;
use hs_heap::{Atom, Disjunct, Of};
use hs_pure::{NoMemory, Var};
use std::alloc::Global;

pub const SELF: Var = Var {
    number: 1,
    bag: false,
};

/// What keeps a case from being founded.
#[derive(Clone, Copy, Debug, PartialEq, Eq)]
pub enum CaseFault {
    RootPredicate,
    NoRoot,
    Unreached(Var),
}

fn is_node(of: Of) -> bool
    ensures { result ≡ spec.is_node of }
{
    match of {
        Of::Node(_) => true,
        Of::Pred(_) => false,
    }
}

fn is_root_predicate(atom: &Atom) -> bool
    ensures { result ≡ spec.is_root_predicate atom.now }
{
    !is_node(atom.of) && atom.root == SELF
}

fn is_root_node(atom: &Atom) -> bool
    ensures { result ≡ spec.is_root_node atom.now }
{
    is_node(atom.of) && atom.root == SELF
}

fn has_root_predicate(atoms: &[Atom]) -> bool
    ensures { result ≡ list_any spec.is_root_predicate atoms.now }
{
    atoms.iter().any(|a| is_root_predicate(a))
}

fn has_one_root(atoms: &[Atom]) -> bool
    ensures { IsTrue result ↔ HasOneRoot atoms.now }
{
    atoms.is_empty() || atoms.iter().filter(|a| is_root_node(a)).count() == 1
}

// The first root that is not marked.
fn first_unmarked(marks: &Marks, atoms: &[Atom]) -> Option<Var>
    ensures { result ≡ marked.first_unmarked marks.now atoms.now }
{
    for atom in atoms {
        if !marks.has(atom.root) {
            return Some(atom.root);
        }
    }
    None
}

/// The first fault of a case of a predicate with these names.
pub fn case_fault(
    alloc: Global,
    names: &[Var],
    case: &Disjunct,
) -> Result<Option<CaseFault>, NoMemory>
    ensures { IfOk result (λ fault. MatchOption fault (CaseIsFounded names.now case.now) (IsCaseFault names.now case.now)) }
{
    let atoms = case.atoms.as_slice();
    if has_root_predicate(atoms) {
        return Ok(Some(CaseFault::RootPredicate));
    }
    if !has_one_root(atoms) {
        return Ok(Some(CaseFault::NoRoot));
    }
    let marks = reached(alloc, names, case)?;
    match first_unmarked(&marks, atoms) {
        Some(v) => Ok(Some(CaseFault::Unreached(v))),
        None => Ok(None),
    }
}
