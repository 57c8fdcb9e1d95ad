//! The names of a source and the entries of its table, and second declarations.

ghost use Rattle.std.specs.Prelude.{◌≡◌, true, ◌+◌, ◌<◌, ◌≤◌, ◌^◌, IfOk, OnOk, List, ◌∷◌, ◌++◌, length};
ghost use Rattle.std.specs.List.{filter_map};
ghost use Rattle.hs_numbering.specs.Numbering.{Builds};
ghost use Rattle.std.specs.Option.{option_copied, option_to_list};
ghost use Rattle.hs_tree.specs.declared.source.SourceItem.{SourceItem as Item};
ghost use Rattle.hs_numbering.specs.Numbering as twice;
ghost use Rattle.hs_declared.specs.Declaring as spec;
ghost use Rattle.hs_declared.specs.Names.{place};

use crate::directory::Directory;
use hs_heap::Of;
use hs_norm_formula::Entry;
use hs_numbering::{Numbering, Problem, is_upper};
use hs_pure::NoMemory;
use hs_tree::{DataTree, Ident, PredTree, SourceItem};
use sqlite_items::Items;
use std::alloc::Global;

fn blame_twice(alloc: Global, n: &mut Numbering, x: &Ident) -> Result<(), NoMemory>
    ensures { Builds (twice.blame_twice x.now true n.old) result n.new }
{
    let name = x.text.copy(alloc)?;
    n.blame(x.at, Problem::Twice(name))
}

/// Notes, as a fault at its place, each name that is not at the first place of its name.
pub fn blame_repeated(alloc: Global, n: &mut Numbering, names: &Directory) -> Result<(), NoMemory>
    ensures { Builds (spec.blame_repeated names.now n.old) result n.new }
{
    let all = names.as_slice();
    for i in 0..all.len() {
        blame_other(alloc, n, names, i, &all[i])?;
    }
    Ok(())
}

// Notes a name, the one at i, whose first place is another.
fn blame_other(
    alloc: Global,
    n: &mut Numbering,
    names: &Directory,
    i: usize,
    x: &Ident,
) -> Result<(), NoMemory>
    ensures { Builds (twice.blame_twice x.now (spec.is_other i (place x.now.text names.now)) n.old) result n.new }
{
    if is_other(i, names.place(&x.text)) {
        return blame_twice(alloc, n, x);
    }
    Ok(())
}

fn is_other(i: usize, place: Option<usize>) -> bool
    ensures { result ≡ spec.is_other i place }
{
    match place {
        None => true,
        Some(k) => k != i,
    }
}

fn node_entry(alloc: Global, k: u32, tree: &DataTree) -> Result<Entry, NoMemory>
    ensures { IfOk result (λ e. e ≡ spec.node_entry k tree.now) }
{
    let mut kinds = Items::new(alloc);
    for _field in tree.fields.as_slice() {
        kinds.push(false)?;
    }
    Ok(Entry {
        name: tree.name.text.copy(alloc)?,
        of: Of::Node(k),
        kinds,
    })
}

fn pred_entry(alloc: Global, k: u32, tree: &PredTree) -> Result<Entry, NoMemory>
    ensures { IfOk result (λ e. e ≡ spec.pred_entry k tree.now) }
{
    let mut kinds = Items::new(alloc);
    for param in tree.params.as_slice() {
        kinds.push(is_upper(&param.text))?;
    }
    Ok(Entry {
        name: tree.name.text.copy(alloc)?,
        of: Of::Pred(k),
        kinds,
    })
}

// Adds what an item declares to the table, and counts it.
fn add_entry(
    alloc: Global,
    found: &mut Items<Entry>,
    nodes: &mut u32,
    preds: &mut u32,
    item: &SourceItem,
) -> Result<(), NoMemory>
    requires nodes { nodes.old + 1 < 2 ^ 32 }
    requires preds { preds.old + 1 < 2 ^ 32 }
    ensures entries { OnOk result ((items : List Item) → found.new ++ spec.entries_after nodes.new preds.new items ≡ found.old ++ spec.entries_after nodes.old preds.old (item.now ∷ items)) }
    ensures nodes { nodes.new ≤ nodes.old + 1 }
    ensures preds { preds.new ≤ preds.old + 1 }
{
    match item {
        SourceItem::Node(tree) => {
            *nodes += 1;
            found.push(node_entry(alloc, *nodes, tree)?)?;
            Ok(())
        }
        SourceItem::Pred(tree) => {
            *preds += 1;
            found.push(pred_entry(alloc, *preds, tree)?)?;
            Ok(())
        }
        SourceItem::Entail(_) => Ok(()),
        SourceItem::Method(_) => Ok(()),
        SourceItem::Lemma(_) => Ok(()),
    }
}

/// The data types and predicates in source order.
pub fn entries(alloc: Global, items: &[SourceItem]) -> Result<Items<Entry>, NoMemory>
    requires { length items.now < 2 ^ 32 }
    ensures { IfOk result (λ es. es ≡ spec.entries items.now) }
{
    let mut found = Items::new(alloc);
    let mut nodes = 0;
    let mut preds = 0;
    for item in items {
        add_entry(alloc, &mut found, &mut nodes, &mut preds, item)?;
    }
    Ok(found)
}

fn defined_name(item: &SourceItem) -> Option<&Ident>
    ensures { option_copied result ≡ spec.defined_name item.now }
{
    match item {
        SourceItem::Node(tree) => Some(&tree.name),
        SourceItem::Pred(tree) => Some(&tree.name),
        SourceItem::Entail(_) => None,
        SourceItem::Method(_) => None,
        SourceItem::Lemma(_) => None,
    }
}

fn method_name(item: &SourceItem) -> Option<&Ident>
    ensures { option_copied result ≡ spec.method_name item.now }
{
    match item {
        SourceItem::Method(tree) => Some(&tree.name),
        SourceItem::Node(_) => None,
        SourceItem::Pred(_) => None,
        SourceItem::Entail(_) => None,
        SourceItem::Lemma(_) => None,
    }
}

fn lemma_name(item: &SourceItem) -> Option<&Ident>
    ensures { option_copied result ≡ spec.lemma_name item.now }
{
    match item {
        SourceItem::Lemma(tree) => Some(&tree.name),
        SourceItem::Node(_) => None,
        SourceItem::Pred(_) => None,
        SourceItem::Entail(_) => None,
        SourceItem::Method(_) => None,
    }
}

fn push_name(alloc: Global, names: &mut Items<Ident>, x: Option<&Ident>) -> Result<(), NoMemory>
    ensures { OnOk result (names.new ≡ names.old ++ option_to_list (option_copied x.entry)) }
{
    if let Some(x) = x {
        names.push(x.copy(alloc)?)?;
    }
    Ok(())
}

/// The names of data types and predicates.
pub fn defined_names(alloc: Global, items: &[SourceItem]) -> Result<Items<Ident>, NoMemory>
    ensures { IfOk result (λ all. all ≡ filter_map spec.defined_name items.now) }
{
    let mut names = Items::new(alloc);
    for item in items {
        push_name(alloc, &mut names, defined_name(item))?;
    }
    Ok(names)
}

pub fn method_names(alloc: Global, items: &[SourceItem]) -> Result<Items<Ident>, NoMemory>
    ensures { IfOk result (λ all. all ≡ filter_map spec.method_name items.now) }
{
    let mut names = Items::new(alloc);
    for item in items {
        push_name(alloc, &mut names, method_name(item))?;
    }
    Ok(names)
}

pub fn lemma_names(alloc: Global, items: &[SourceItem]) -> Result<Items<Ident>, NoMemory>
    ensures { IfOk result (λ all. all ≡ filter_map spec.lemma_name items.now) }
{
    let mut names = Items::new(alloc);
    for item in items {
        push_name(alloc, &mut names, lemma_name(item))?;
    }
    Ok(names)
}

fn push_count(counts: &mut Items<usize>, item: &SourceItem) -> Result<(), NoMemory>
    ensures { OnOk result (counts.new ≡ counts.old ++ option_to_list (spec.param_count item.now)) }
{
    if let SourceItem::Method(tree) = item {
        counts.push(tree.params.as_slice().len())?;
    }
    Ok(())
}

/// How many parameters each method has.
pub fn param_counts(alloc: Global, items: &[SourceItem]) -> Result<Items<usize>, NoMemory>
    ensures { IfOk result (λ all. all ≡ filter_map spec.param_count items.now) }
{
    let mut counts = Items::new(alloc);
    for item in items {
        push_count(&mut counts, item)?;
    }
    Ok(counts)
}

fn blame_names(alloc: Global, n: &mut Numbering, names: Items<Ident>) -> Result<(), NoMemory>
    ensures { Builds (spec.blame_repeated names n.old) result n.new }
{
    let names = Directory::new(alloc, names)?;
    blame_repeated(alloc, n, &names)
}

/// Notes each second declaration, as a fault at its place: of data types and predicates, methods, and lemmas.
pub fn blame_second(alloc: Global, n: &mut Numbering, items: &[SourceItem]) -> Result<(), NoMemory>
    ensures { Builds (spec.blame_second items.now n.old) result n.new }
{
    blame_names(alloc, n, defined_names(alloc, items)?)?;
    blame_names(alloc, n, method_names(alloc, items)?)?;
    blame_names(alloc, n, lemma_names(alloc, items)?)
}
