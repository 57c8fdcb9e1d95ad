//! Sources in normal form.

ghost use Rattle.std.specs.Prelude.{◌≡◌, IfOk};

use hs_declared::VarType;
use hs_heap::Defs;
use hs_norm_item::{Entailment, PairTree};
use hs_numbering::Names;
use hs_pure::NoMemory;
use hs_text::Text;
use hs_tree::BlockTree;
use sqlite_items::Items;
use std::alloc::Global;

/// A parameter of a method.
#[derive(Debug, Drop)]
pub struct Param {
    pub name: Text,
    pub kind: VarType,
}

/// A method with its pairs. Its block is the tree that was read.
#[derive(Drop)]
pub struct MethodTree {
    pub name: Text,
    pub params: Items<Param>,
    pub result: Option<VarType>,
    pub pairs: Items<PairTree>,
    pub block: BlockTree,
}

/// A source in normal form. `pred_names` and `lemma_names` have the source names of each predicate and lemma.
#[derive(Drop)]
pub struct Resolved {
    pub defs: Defs,
    pub pred_names: Items<Names>,
    pub entailments: Items<Entailment>,
    pub methods: Items<MethodTree>,
    pub lemma_names: Items<Names>,
}

impl Param {
    /// An equal parameter.
    pub fn copy(&self, alloc: Global) -> Result<Param, NoMemory>
        ensures { IfOk result (λ p. p ≡ self.now) }
    {
        Ok(Param {
            name: self.name.copy(alloc)?,
            kind: self.kind,
        })
    }
}

fn copy_params(alloc: Global, params: &[Param]) -> Result<Items<Param>, NoMemory>
    ensures { IfOk result (λ all. all ≡ params.now) }
{
    let mut all = Items::new(alloc);
    for param in params {
        all.push(param.copy(alloc)?)?;
    }
    Ok(all)
}

fn copy_pairs(alloc: Global, pairs: &[PairTree]) -> Result<Items<PairTree>, NoMemory>
    ensures { IfOk result (λ all. all ≡ pairs.now) }
{
    let mut all = Items::new(alloc);
    for pair in pairs {
        all.push(pair.copy(alloc)?)?;
    }
    Ok(all)
}

impl MethodTree {
    /// An equal method.
    pub fn copy(&self, alloc: Global) -> Result<MethodTree, NoMemory>
        ensures { IfOk result (λ m. m ≡ self.now) }
    {
        Ok(MethodTree {
            name: self.name.copy(alloc)?,
            params: copy_params(alloc, self.params.as_slice())?,
            result: self.result,
            pairs: copy_pairs(alloc, self.pairs.as_slice())?,
            block: self.block.copy(alloc)?,
        })
    }
}

fn copy_names(alloc: Global, names: &[Names]) -> Result<Items<Names>, NoMemory>
    ensures { IfOk result (λ all. all ≡ names.now) }
{
    let mut all = Items::new(alloc);
    for one in names {
        all.push(one.copy(alloc)?)?;
    }
    Ok(all)
}

fn copy_entailments(
    alloc: Global,
    entailments: &[Entailment],
) -> Result<Items<Entailment>, NoMemory>
    ensures { IfOk result (λ all. all ≡ entailments.now) }
{
    let mut all = Items::new(alloc);
    for entailment in entailments {
        all.push(entailment.copy(alloc)?)?;
    }
    Ok(all)
}

fn copy_methods(alloc: Global, methods: &[MethodTree]) -> Result<Items<MethodTree>, NoMemory>
    ensures { IfOk result (λ all. all ≡ methods.now) }
{
    let mut all = Items::new(alloc);
    for method in methods {
        all.push(method.copy(alloc)?)?;
    }
    Ok(all)
}

impl Resolved {
    /// An equal source in normal form.
    pub fn copy(&self, alloc: Global) -> Result<Resolved, NoMemory>
        ensures { IfOk result (λ r. r ≡ self.now) }
    {
        Ok(Resolved {
            defs: self.defs.copy(alloc)?,
            pred_names: copy_names(alloc, self.pred_names.as_slice())?,
            entailments: copy_entailments(alloc, self.entailments.as_slice())?,
            methods: copy_methods(alloc, self.methods.as_slice())?,
            lemma_names: copy_names(alloc, self.lemma_names.as_slice())?,
        })
    }
}
