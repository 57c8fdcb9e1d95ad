ghost use Rattle.std.specs.Prelude.{◌≡◌, IfOk};

use crate::copies::{copy_fields, copy_lemmas, copy_nodes, copy_preds};
use crate::formula::{Disjunct, Formula};
use hs_pure::{NoMemory, Pure, Var};
use hs_text::Text;
use sqlite_items::Items;
use std::alloc::Global;

/// A data type. A field has the data type to which it points, by number from 1, or none where it is an int.
#[derive(Debug, Drop)]
pub struct NodeDef {
    pub name: Text,
    pub fields: Items<(Text, Option<u32>)>,
}

impl NodeDef {
    /// An equal data type.
    pub fn copy(&self, alloc: Global) -> Result<NodeDef, NoMemory>
        ensures { IfOk result (λ n. n ≡ self.now) }
    {
        Ok(NodeDef {
            name: self.name.copy(alloc)?,
            fields: copy_fields(alloc, self.fields.as_slice())?,
        })
    }
}

/// A predicate. Its root `self` is variable 1, the parameters follow, and all numbers are below `next`.
#[derive(Debug, Drop)]
pub struct PredDef {
    pub name: Text,
    pub params: Items<Var>,
    pub body: Formula,
    pub inv: Pure,
    pub next: u32,
}

impl PredDef {
    /// An equal predicate.
    pub fn copy(&self, alloc: Global) -> Result<PredDef, NoMemory>
        ensures { IfOk result (λ p. p ≡ self.now) }
    {
        Ok(PredDef {
            name: self.name.copy(alloc)?,
            params: Items::from_slice(alloc, self.params.as_slice())?,
            body: self.body.copy(alloc)?,
            inv: self.inv.copy(alloc)?,
            next: self.next,
        })
    }
}

/// A lemma: what a predicate says of a heap entails its right side. `self` and the parameters are numbered as
/// those of a predicate, and all numbers are below `next`.
#[derive(Debug, Drop)]
pub struct Lemma {
    pub name: Text,
    /// By number from 1.
    pub pred: u32,
    pub params: Items<Var>,
    pub right: Disjunct,
    pub next: u32,
}

impl Lemma {
    /// An equal lemma.
    pub fn copy(&self, alloc: Global) -> Result<Lemma, NoMemory>
        ensures { IfOk result (λ l. l ≡ self.now) }
    {
        Ok(Lemma {
            name: self.name.copy(alloc)?,
            pred: self.pred,
            params: Items::from_slice(alloc, self.params.as_slice())?,
            right: self.right.copy(alloc)?,
            next: self.next,
        })
    }
}

/// The data types, the predicates and the lemmas of a source, each by number from 1.
#[derive(Debug, Drop)]
pub struct Defs {
    pub nodes: Items<NodeDef>,
    pub preds: Items<PredDef>,
    pub lemmas: Items<Lemma>,
}

impl Defs {
    /// Equal definitions.
    pub fn copy(&self, alloc: Global) -> Result<Defs, NoMemory>
        ensures { IfOk result (λ d. d ≡ self.now) }
    {
        Ok(Defs {
            nodes: copy_nodes(alloc, self.nodes.as_slice())?,
            preds: copy_preds(alloc, self.preds.as_slice())?,
            lemmas: copy_lemmas(alloc, self.lemmas.as_slice())?,
        })
    }
}
