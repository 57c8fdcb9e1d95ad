ghost use Rattle.std.specs.Prelude.{◌≡◌, IfOk};
ghost use Rattle.std.specs.List.{list_any};
ghost use Rattle.hs_pure.specs.Occurs.{is_free};
ghost use Rattle.hs_heap.specs.Variables.{in_atom, is_free_in_disjunct, is_free_in_formula};

use crate::copies::{copy_atoms, copy_cases, copy_conjuncts};
use crate::scope::is_listed;
use hs_pure::{NoMemory, Pure, Var};
use sqlite_items::Items;
use std::alloc::Global;

/// What an atom is of: a data type or a predicate, by number from 1.
#[derive(Clone, Copy, Debug, PartialEq, Eq)]
pub enum Of {
    Node(u32),
    Pred(u32),
}

/// The data type or predicate at the value of a root, with values of arguments.
#[derive(Debug, Drop)]
pub struct Atom {
    pub root: Var,
    pub of: Of,
    pub args: Items<Var>,
}

impl Atom {
    /// An equal atom.
    pub fn copy(&self, alloc: Global) -> Result<Atom, NoMemory>
        ensures { IfOk result (λ a. a ≡ self.now) }
    {
        Ok(Atom {
            root: self.root,
            of: self.of,
            args: Items::from_slice(alloc, self.args.as_slice())?,
        })
    }

    // Whether `v` is the root or an argument.
    pub(crate) fn has(&self, v: Var) -> bool
        ensures { result ≡ in_atom v self.now }
    {
        v == self.root || is_listed(self.args.as_slice(), v)
    }
}

/// Atoms that share no node, and conjuncts, for some values of the bound variables. No conjunct is an `And`.
#[derive(Debug, Drop)]
pub struct Disjunct {
    pub bound: Items<Var>,
    pub atoms: Items<Atom>,
    pub pure: Items<Pure>,
}

impl Disjunct {
    /// An equal disjunct.
    pub fn copy(&self, alloc: Global) -> Result<Disjunct, NoMemory>
        ensures { IfOk result (λ d. d ≡ self.now) }
    {
        Ok(Disjunct {
            bound: Items::from_slice(alloc, self.bound.as_slice())?,
            atoms: copy_atoms(alloc, self.atoms.as_slice())?,
            pure: copy_conjuncts(alloc, self.pure.as_slice())?,
        })
    }

    /// Whether `v` occurs free. The variables that the disjunct binds are not free in it. It takes no memory.
    pub fn has(&self, v: Var) -> bool
        ensures { result ≡ is_free_in_disjunct v self.now }
    {
        !is_listed(self.bound.as_slice(), v)
            && (some_atom_has(self.atoms.as_slice(), v)
                || some_conjunct_has(self.pure.as_slice(), v))
    }
}

fn some_atom_has(atoms: &[Atom], v: Var) -> bool
    ensures { result ≡ list_any (in_atom v) atoms.now }
{
    atoms.iter().any(|a| a.has(v))
}

fn some_conjunct_has(ps: &[Pure], v: Var) -> bool
    ensures { result ≡ list_any (is_free v) ps.now }
{
    ps.iter().any(|p| p.has(v))
}

/// A disjunction. Without disjuncts it holds of no heap.
#[derive(Debug, Drop)]
pub struct Formula {
    pub cases: Items<Disjunct>,
}

impl Formula {
    /// An equal formula.
    pub fn copy(&self, alloc: Global) -> Result<Formula, NoMemory>
        ensures { IfOk result (λ f. f ≡ self.now) }
    {
        Ok(Formula {
            cases: copy_cases(alloc, self.cases.as_slice())?,
        })
    }

    /// Whether `v` occurs free in a disjunct. It takes no memory.
    pub fn has(&self, v: Var) -> bool
        ensures { result ≡ is_free_in_formula v self.now }
    {
        self.cases.as_slice().iter().any(|d| d.has(v))
    }
}
