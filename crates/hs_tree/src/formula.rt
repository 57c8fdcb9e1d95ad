ghost use Rattle.std.specs.Prelude.{◌≡◌, IfOk};

use crate::expr::ExprTree;
use crate::ident::{Ident, copy_idents};
use crate::item::{ItemTree, copy_items};
use hs_text::NoMemory;
use sqlite_items::Items;
use std::alloc::Global;

/// A disjunction of heaps with conjuncts.
#[derive(Drop)]
pub struct FormulaTree {
    pub cases: Items<DisjunctTree>,
    /// The offset of its first token.
    pub at: u32,
}

/// Bound names, atoms and conjuncts.
#[derive(Drop)]
pub struct DisjunctTree {
    pub bound: Items<Ident>,
    pub atoms: Items<AtomTree>,
    pub items: Items<ItemTree>,
    /// The offset of its first token.
    pub at: u32,
}

/// A data type or predicate at a root.
#[derive(Drop)]
pub struct AtomTree {
    pub root: Ident,
    pub name: Ident,
    pub args: Items<ArgTree>,
}

/// An argument of an atom.
#[derive(Drop)]
pub enum ArgTree {
    /// A hole, by the offset of its `_`.
    Hole(u32),
    Value(ExprTree),
}

impl ArgTree {
    /// An equal argument.
    pub fn copy(&self, alloc: Global) -> Result<ArgTree, NoMemory>
        ensures { IfOk result (λ t. t ≡ self.now) }
    {
        match self {
            ArgTree::Hole(at) => Ok(ArgTree::Hole(*at)),
            ArgTree::Value(expr) => Ok(ArgTree::Value(expr.copy(alloc)?)),
        }
    }
}

fn copy_args(alloc: Global, args: &[ArgTree]) -> Result<Items<ArgTree>, NoMemory>
    ensures { IfOk result (λ all. all ≡ args.now) }
{
    let mut all = Items::new(alloc);
    for arg in args {
        all.push(arg.copy(alloc)?)?;
    }
    Ok(all)
}

impl AtomTree {
    /// An equal atom.
    pub fn copy(&self, alloc: Global) -> Result<AtomTree, NoMemory>
        ensures { IfOk result (λ t. t ≡ self.now) }
    {
        Ok(AtomTree {
            root: self.root.copy(alloc)?,
            name: self.name.copy(alloc)?,
            args: copy_args(alloc, self.args.as_slice())?,
        })
    }
}

fn copy_atoms(alloc: Global, atoms: &[AtomTree]) -> Result<Items<AtomTree>, NoMemory>
    ensures { IfOk result (λ all. all ≡ atoms.now) }
{
    let mut all = Items::new(alloc);
    for atom in atoms {
        all.push(atom.copy(alloc)?)?;
    }
    Ok(all)
}

impl DisjunctTree {
    /// An equal disjunct.
    pub fn copy(&self, alloc: Global) -> Result<DisjunctTree, NoMemory>
        ensures { IfOk result (λ t. t ≡ self.now) }
    {
        Ok(DisjunctTree {
            bound: copy_idents(alloc, self.bound.as_slice())?,
            atoms: copy_atoms(alloc, self.atoms.as_slice())?,
            items: copy_items(alloc, self.items.as_slice())?,
            at: self.at,
        })
    }
}

fn copy_cases(alloc: Global, cases: &[DisjunctTree]) -> Result<Items<DisjunctTree>, NoMemory>
    ensures { IfOk result (λ all. all ≡ cases.now) }
{
    let mut all = Items::new(alloc);
    for case in cases {
        all.push(case.copy(alloc)?)?;
    }
    Ok(all)
}

impl FormulaTree {
    /// An equal formula.
    pub fn copy(&self, alloc: Global) -> Result<FormulaTree, NoMemory>
        ensures { IfOk result (λ t. t ≡ self.now) }
    {
        Ok(FormulaTree {
            cases: copy_cases(alloc, self.cases.as_slice())?,
            at: self.at,
        })
    }
}
