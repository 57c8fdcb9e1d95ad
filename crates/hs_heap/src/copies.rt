ghost use Rattle.std.specs.Prelude.{◌≡◌, IfOk};

use crate::definitions::{Lemma, NodeDef, PredDef};
use crate::formula::{Atom, Disjunct};
use hs_pure::{NoMemory, Pure};
use hs_text::Text;
use sqlite_items::Items;
use std::alloc::Global;

pub fn copy_atoms(alloc: Global, atoms: &[Atom]) -> Result<Items<Atom>, NoMemory>
    ensures { IfOk result (λ all. all ≡ atoms.now) }
{
    let mut all = Items::new(alloc);
    for atom in atoms {
        all.push(atom.copy(alloc)?)?;
    }
    Ok(all)
}

pub fn copy_conjuncts(alloc: Global, conjuncts: &[Pure]) -> Result<Items<Pure>, NoMemory>
    ensures { IfOk result (λ all. all ≡ conjuncts.now) }
{
    let mut all = Items::new(alloc);
    for conjunct in conjuncts {
        all.push(conjunct.copy(alloc)?)?;
    }
    Ok(all)
}

pub fn copy_cases(alloc: Global, cases: &[Disjunct]) -> Result<Items<Disjunct>, NoMemory>
    ensures { IfOk result (λ all. all ≡ cases.now) }
{
    let mut all = Items::new(alloc);
    for case in cases {
        all.push(case.copy(alloc)?)?;
    }
    Ok(all)
}

pub fn copy_nodes(alloc: Global, nodes: &[NodeDef]) -> Result<Items<NodeDef>, NoMemory>
    ensures { IfOk result (λ all. all ≡ nodes.now) }
{
    let mut all = Items::new(alloc);
    for node in nodes {
        all.push(node.copy(alloc)?)?;
    }
    Ok(all)
}

pub fn copy_preds(alloc: Global, preds: &[PredDef]) -> Result<Items<PredDef>, NoMemory>
    ensures { IfOk result (λ all. all ≡ preds.now) }
{
    let mut all = Items::new(alloc);
    for pred in preds {
        all.push(pred.copy(alloc)?)?;
    }
    Ok(all)
}

pub fn copy_lemmas(alloc: Global, lemmas: &[Lemma]) -> Result<Items<Lemma>, NoMemory>
    ensures { IfOk result (λ all. all ≡ lemmas.now) }
{
    let mut all = Items::new(alloc);
    for lemma in lemmas {
        all.push(lemma.copy(alloc)?)?;
    }
    Ok(all)
}

pub fn copy_fields(
    alloc: Global,
    fields: &[(Text, Option<u32>)],
) -> Result<Items<(Text, Option<u32>)>, NoMemory>
    ensures { IfOk result (λ all. all ≡ fields.now) }
{
    let mut all = Items::new(alloc);
    for field in fields {
        let name = field.0.copy(alloc)?;
        all.push((name, field.1))?;
    }
    Ok(all)
}
