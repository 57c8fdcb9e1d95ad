//! Entailments and pairs in normal form.

ghost use Rattle.std.specs.Prelude.{◌≡◌, IfOk};

use hs_heap::Formula;
use hs_numbering::Names;
use hs_pure::{Lin, NoMemory, Var};
use sqlite_items::Items;
use std::alloc::Global;

/// What an entailment says: its two sides, the variables that are free in the right one alone, the least
/// number that is not given, and the source names.
#[derive(Debug, Drop)]
pub struct Entailment {
    pub left: Formula,
    pub right: Formula,
    pub opens: Items<Var>,
    pub next: u32,
    pub names: Names,
}

/// A pair of a method: precondition and postcondition, the variables that are free in the precondition and
/// are no parameters, the least number that is not given, the source names, and the variant, if there is one.
/// The parameters are numbered first, and `res` after them.
#[derive(Debug, Drop)]
pub struct PairTree {
    pub pair_pre: Formula,
    pub pair_post: Formula,
    pub logic: Items<Var>,
    pub next: u32,
    pub names: Names,
    pub variant: Option<Lin>,
}

impl Entailment {
    /// An equal entailment.
    pub fn copy(&self, alloc: Global) -> Result<Entailment, NoMemory>
        ensures { IfOk result (λ e. e ≡ self.now) }
    {
        Ok(Entailment {
            left: self.left.copy(alloc)?,
            right: self.right.copy(alloc)?,
            opens: Items::from_slice(alloc, self.opens.as_slice())?,
            next: self.next,
            names: self.names.copy(alloc)?,
        })
    }
}

fn copy_variant(alloc: Global, variant: &Option<Lin>) -> Result<Option<Lin>, NoMemory>
    ensures { IfOk result (λ v. v ≡ variant.now) }
{
    match variant {
        None => Ok(None),
        Some(variant) => Ok(Some(variant.copy(alloc)?)),
    }
}

impl PairTree {
    /// An equal pair.
    pub fn copy(&self, alloc: Global) -> Result<PairTree, NoMemory>
        ensures { IfOk result (λ p. p ≡ self.now) }
    {
        Ok(PairTree {
            pair_pre: self.pair_pre.copy(alloc)?,
            pair_post: self.pair_post.copy(alloc)?,
            logic: Items::from_slice(alloc, self.logic.as_slice())?,
            next: self.next,
            names: self.names.copy(alloc)?,
            variant: copy_variant(alloc, &self.variant)?,
        })
    }
}
