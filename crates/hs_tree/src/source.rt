ghost use Rattle.std.specs.Prelude.{◌≡◌, IfOk};

use crate::formula::{DisjunctTree, FormulaTree};
use crate::ident::{Ident, copy_idents};
use crate::item::{ItemTree, copy_items};
use crate::method::{MethodSource, ParamTree, copy_params};
use hs_text::NoMemory;
use sqlite_items::Items;
use std::alloc::Global;

/// A whole source.
#[derive(Drop)]
pub struct Source {
    pub items: Items<SourceItem>,
}

/// A declaration, an entailment or a lemma.
#[derive(Drop)]
pub enum SourceItem {
    Node(DataTree),
    Pred(PredTree),
    Entail(EntailTree),
    Method(MethodSource),
    Lemma(LemmaTree),
}

/// A data type.
#[derive(Debug, Drop)]
pub struct DataTree {
    pub name: Ident,
    pub fields: Items<ParamTree>,
    /// The offset of its first token.
    pub at: u32,
}

/// A predicate.
#[derive(Drop)]
pub struct PredTree {
    pub name: Ident,
    pub params: Items<Ident>,
    pub body: FormulaTree,
    pub inv: Option<Items<ItemTree>>,
    /// The offset of its first token.
    pub at: u32,
}

/// A claim that one formula follows from another.
#[derive(Drop)]
pub struct EntailTree {
    pub left: FormulaTree,
    pub right: FormulaTree,
    /// The offset of its first token.
    pub at: u32,
}

/// A lemma on `self` and these names.
#[derive(Drop)]
pub struct LemmaTree {
    pub name: Ident,
    pub pred: Ident,
    pub params: Items<Ident>,
    pub right: DisjunctTree,
    /// The offset of its first token.
    pub at: u32,
}

impl DataTree {
    /// An equal data type.
    pub fn copy(&self, alloc: Global) -> Result<DataTree, NoMemory>
        ensures { IfOk result (λ t. t ≡ self.now) }
    {
        Ok(DataTree {
            name: self.name.copy(alloc)?,
            fields: copy_params(alloc, self.fields.as_slice())?,
            at: self.at,
        })
    }
}

fn copy_inv(
    alloc: Global,
    inv: &Option<Items<ItemTree>>,
) -> Result<Option<Items<ItemTree>>, NoMemory>
    ensures { IfOk result (λ t. t ≡ inv.now) }
{
    match inv {
        None => Ok(None),
        Some(items) => Ok(Some(copy_items(alloc, items.as_slice())?)),
    }
}

impl PredTree {
    /// An equal predicate.
    pub fn copy(&self, alloc: Global) -> Result<PredTree, NoMemory>
        ensures { IfOk result (λ t. t ≡ self.now) }
    {
        Ok(PredTree {
            name: self.name.copy(alloc)?,
            params: copy_idents(alloc, self.params.as_slice())?,
            body: self.body.copy(alloc)?,
            inv: copy_inv(alloc, &self.inv)?,
            at: self.at,
        })
    }
}

impl EntailTree {
    /// An equal entailment.
    pub fn copy(&self, alloc: Global) -> Result<EntailTree, NoMemory>
        ensures { IfOk result (λ t. t ≡ self.now) }
    {
        Ok(EntailTree {
            left: self.left.copy(alloc)?,
            right: self.right.copy(alloc)?,
            at: self.at,
        })
    }
}

impl LemmaTree {
    /// An equal lemma.
    pub fn copy(&self, alloc: Global) -> Result<LemmaTree, NoMemory>
        ensures { IfOk result (λ t. t ≡ self.now) }
    {
        Ok(LemmaTree {
            name: self.name.copy(alloc)?,
            pred: self.pred.copy(alloc)?,
            params: copy_idents(alloc, self.params.as_slice())?,
            right: self.right.copy(alloc)?,
            at: self.at,
        })
    }
}

impl SourceItem {
    /// An equal declaration.
    pub fn copy(&self, alloc: Global) -> Result<SourceItem, NoMemory>
        ensures { IfOk result (λ t. t ≡ self.now) }
    {
        match self {
            SourceItem::Node(tree) => Ok(SourceItem::Node(tree.copy(alloc)?)),
            SourceItem::Pred(tree) => Ok(SourceItem::Pred(tree.copy(alloc)?)),
            SourceItem::Entail(tree) => Ok(SourceItem::Entail(tree.copy(alloc)?)),
            SourceItem::Method(tree) => Ok(SourceItem::Method(tree.copy(alloc)?)),
            SourceItem::Lemma(tree) => Ok(SourceItem::Lemma(tree.copy(alloc)?)),
        }
    }
}

fn copy_all(alloc: Global, items: &[SourceItem]) -> Result<Items<SourceItem>, NoMemory>
    ensures { IfOk result (λ all. all ≡ items.now) }
{
    let mut all = Items::new(alloc);
    for item in items {
        all.push(item.copy(alloc)?)?;
    }
    Ok(all)
}

impl Source {
    /// An equal source.
    pub fn copy(&self, alloc: Global) -> Result<Source, NoMemory>
        ensures { IfOk result (λ t. t ≡ self.now) }
    {
        Ok(Source {
            items: copy_all(alloc, self.items.as_slice())?,
        })
    }
}
