//! The normal form of a source.

ghost use Rattle.std.specs.Prelude.{◌≡◌, ◌<◌, ◌^◌, length, map, IfOk, OnOk};
ghost use Rattle.std.specs.List.{filter_map};
ghost use Rattle.hs_numbering.specs.Numbering.{Builds, each_counted};
ghost use Rattle.hs_numbering.specs.Least as first;
ghost use Rattle.hs_norm_formula.specs.Numbered.{Gives, outcome};
ghost use Rattle.hs_norm_item.specs.Claims as claims;
ghost use Rattle.hs_norm_item.specs.Definitions as definitions;
ghost use Rattle.hs_norm.specs.Items as items_of;
ghost use Rattle.hs_norm.specs.Normal as spec;

use crate::methods::method;
use crate::resolved::{MethodTree, Resolved};
use hs_declared::{Declarations, blame_second};
use hs_heap::{Defs, Lemma, NodeDef, PredDef};
use hs_norm_formula::{NormError, error_of};
use hs_norm_item::{Entailment, entailment, lemma, node, pred};
use hs_numbering::{Fault, Names, Numbering, Reading, least};
use hs_pure::NoMemory;
use hs_tree::{Source, SourceItem};
use sqlite_items::Items;
use std::alloc::Global;

fn add_node(
    alloc: Global,
    n: &mut Numbering,
    d: &Declarations,
    found: &mut Items<NodeDef>,
    item: &SourceItem,
) -> Result<(), NoMemory>
    ensures { OnOk result ((found.new, n.new) ≡ spec.add_some (definitions.node d.now.table) (items_of.data_of item.now) (found.old, n.old)) }
{
    if let SourceItem::Node(tree) = item {
        found.push(node(alloc, n, &d.table, found.len(), tree)?)?;
    }
    Ok(())
}

fn nodes(
    alloc: Global,
    n: &mut Numbering,
    d: &Declarations,
    items: &[SourceItem],
) -> Result<Items<NodeDef>, NoMemory>
    ensures { Builds (each_counted (definitions.node d.now.table) (filter_map items_of.data_of items.now) n.old) result n.new }
{
    let mut found = Items::new(alloc);
    for item in items {
        add_node(alloc, n, d, &mut found, item)?;
    }
    Ok(found)
}

fn add_pred(
    alloc: Global,
    n: &mut Numbering,
    d: &Declarations,
    found: &mut Vec<(PredDef, Names)>,
    item: &SourceItem,
) -> Result<(), NoMemory>
    ensures { OnOk result ((found.new.items, n.new) ≡ spec.add_some (definitions.pred d.now.table) (items_of.pred_of item.now) (found.old.items, n.old)) }
{
    if let SourceItem::Pred(tree) = item {
        found.push(pred(alloc, n, &d.table, found.len(), tree)?)?;
    }
    Ok(())
}

fn preds(
    alloc: Global,
    n: &mut Numbering,
    d: &Declarations,
    items: &[SourceItem],
) -> Result<Vec<(PredDef, Names)>, NoMemory>
    ensures { IfOk result (λ found. (found.items, n.new) ≡ each_counted (definitions.pred d.now.table) (filter_map items_of.pred_of items.now) n.old) }
{
    let mut found = Vec::new(alloc);
    for item in items {
        add_pred(alloc, n, d, &mut found, item)?;
    }
    Ok(found)
}

fn add_entailment(
    alloc: Global,
    n: &mut Numbering,
    d: &Declarations,
    found: &mut Items<Entailment>,
    item: &SourceItem,
) -> Result<(), NoMemory>
    ensures { OnOk result ((found.new, n.new) ≡ spec.add_some (claims.entailment d.now.table) (items_of.entail_of item.now) (found.old, n.old)) }
{
    if let SourceItem::Entail(tree) = item {
        found.push(entailment(alloc, n, &d.table, found.len(), tree)?)?;
    }
    Ok(())
}

fn entailments(
    alloc: Global,
    n: &mut Numbering,
    d: &Declarations,
    items: &[SourceItem],
) -> Result<Items<Entailment>, NoMemory>
    ensures { Builds (each_counted (claims.entailment d.now.table) (filter_map items_of.entail_of items.now) n.old) result n.new }
{
    let mut found = Items::new(alloc);
    for item in items {
        add_entailment(alloc, n, d, &mut found, item)?;
    }
    Ok(found)
}

fn add_method(
    alloc: Global,
    n: &mut Numbering,
    d: &Declarations,
    found: &mut Items<MethodTree>,
    item: &SourceItem,
) -> Result<(), NoMemory>
    ensures { OnOk result ((found.new, n.new) ≡ spec.add_some (spec.method d.now) (items_of.method_of item.now) (found.old, n.old)) }
{
    if let SourceItem::Method(tree) = item {
        found.push(method(alloc, n, d, found.len(), tree)?)?;
    }
    Ok(())
}

fn methods(
    alloc: Global,
    n: &mut Numbering,
    d: &Declarations,
    items: &[SourceItem],
) -> Result<Items<MethodTree>, NoMemory>
    ensures { Builds (each_counted (spec.method d.now) (filter_map items_of.method_of items.now) n.old) result n.new }
{
    let mut found = Items::new(alloc);
    for item in items {
        add_method(alloc, n, d, &mut found, item)?;
    }
    Ok(found)
}

fn add_lemma(
    alloc: Global,
    n: &mut Numbering,
    d: &Declarations,
    found: &mut Vec<(Lemma, Names)>,
    item: &SourceItem,
) -> Result<(), NoMemory>
    ensures { OnOk result ((found.new.items, n.new) ≡ spec.add_some (definitions.lemma d.now.table) (items_of.lemma_of item.now) (found.old.items, n.old)) }
{
    if let SourceItem::Lemma(tree) = item {
        found.push(lemma(alloc, n, &d.table, found.len(), tree)?)?;
    }
    Ok(())
}

fn lemmas(
    alloc: Global,
    n: &mut Numbering,
    d: &Declarations,
    items: &[SourceItem],
) -> Result<Vec<(Lemma, Names)>, NoMemory>
    ensures { IfOk result (λ found. (found.items, n.new) ≡ each_counted (definitions.lemma d.now.table) (filter_map items_of.lemma_of items.now) n.old) }
{
    let mut found = Vec::new(alloc);
    for item in items {
        add_lemma(alloc, n, d, &mut found, item)?;
    }
    Ok(found)
}

// Predicates or lemmas, and their source names.
fn split_preds(
    alloc: Global,
    both: Vec<(PredDef, Names)>,
) -> Result<(Items<PredDef>, Items<Names>), NoMemory>
    ensures preds { IfOk result (λ r. r.0 ≡ map (λ p. p.0) both.items) }
    ensures names { IfOk result (λ r. r.1 ≡ map (λ p. p.1) both.items) }
{
    let mut preds = Items::new(alloc);
    let mut all = Items::new(alloc);
    for (pred, names) in both {
        preds.push(pred)?;
        all.push(names)?;
    }
    Ok((preds, all))
}

fn split_lemmas(
    alloc: Global,
    both: Vec<(Lemma, Names)>,
) -> Result<(Items<Lemma>, Items<Names>), NoMemory>
    ensures lemmas { IfOk result (λ r. r.0 ≡ map (λ p. p.0) both.items) }
    ensures names { IfOk result (λ r. r.1 ≡ map (λ p. p.1) both.items) }
{
    let mut lemmas = Items::new(alloc);
    let mut all = Items::new(alloc);
    for (lemma, names) in both {
        lemmas.push(lemma)?;
        all.push(names)?;
    }
    Ok((lemmas, all))
}

// What the items give over these declarations, whatever faults are met.
fn parts_normal(
    alloc: Global,
    n: &mut Numbering,
    d: &Declarations,
    items: &[SourceItem],
) -> Result<Resolved, NoMemory>
    ensures { Builds (spec.parts_normal d.now items.now n.old) result n.new }
{
    let nodes = nodes(alloc, n, d, items)?;
    let (preds, pred_names) = split_preds(alloc, preds(alloc, n, d, items)?)?;
    let entailments = entailments(alloc, n, d, items)?;
    let methods = methods(alloc, n, d, items)?;
    let (lemmas, lemma_names) = split_lemmas(alloc, lemmas(alloc, n, d, items)?)?;
    Ok(Resolved {
        defs: Defs {
            nodes,
            preds,
            lemmas,
        },
        pred_names,
        entailments,
        methods,
        lemma_names,
    })
}

// What the items give, whatever faults are met.
fn items_normal(
    alloc: Global,
    n: &mut Numbering,
    items: &[SourceItem],
) -> Result<Resolved, NoMemory>
    requires { length items.now < 2 ^ 32 }
    ensures { Builds (spec.items_normal items.now n.old) result n.new }
{
    let d = Declarations::of(alloc, items)?;
    blame_second(alloc, n, items)?;
    parts_normal(alloc, n, &d, items)
}

// What was built, or the error of the first fault.
fn first_fault(alloc: Global, found: Resolved, faults: &[Fault]) -> Result<Resolved, NormError>
    ensures { Gives (outcome (first.least faults.now) found) result }
{
    match least(faults) {
        None => Ok(found),
        Some(fault) => Err(error_of(alloc, fault)?),
    }
}

/// The normal form of a source of fewer than 2^32 items, or its first fault in the order of the text; of
/// several at one place the one that `NormError` lists first.
pub fn normal(alloc: Global, source: &Source) -> Result<Resolved, NormError>
    requires { length source.now.items < 2 ^ 32 }
    ensures { Gives (spec.normal_of source.now) result }
{
    let mut n = Numbering::new(alloc, Reading::Closed);
    let found = items_normal(alloc, &mut n, source.items.as_slice())?;
    first_fault(alloc, found, n.faults.as_slice())
}
