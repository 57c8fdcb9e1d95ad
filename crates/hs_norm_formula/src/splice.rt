//! Conjuncts that are themselves an "and" are spliced.

ghost use Rattle.std.specs.Prelude.{◌≡◌, ◌++◌, OnOk, map};
ghost use Rattle.std.specs.List.{flat_map};
ghost use Rattle.hs_heap.specs.WellFormed.{is_and};
ghost use Rattle.hs_numbering.specs.Numbering.{Builds};
ghost use Rattle.hs_norm_formula.specs.Item.{item};
ghost use Rattle.hs_norm_formula.specs.Splice as spec;

use crate::item::item;
use hs_numbering::Numbering;
use hs_pure::{NoMemory, Pure};
use hs_tree::ItemTree;
use sqlite_items::Items;
use std::alloc::Global;

#[cycle(splice)]
fn splice(alloc: Global, p: &Pure, into: &mut Items<Pure>) -> Result<(), NoMemory>
    ensures { OnOk result (into.new ≡ into.old ++ spec.conjuncts p.now) }
{
    if let Pure::And(parts) = p {
        return splice_all(alloc, parts.as_slice(), into);
    }
    into.push(p.copy(alloc)?)?;
    Ok(())
}

#[cycle(splice)]
fn splice_all(alloc: Global, parts: &[Pure], into: &mut Items<Pure>) -> Result<(), NoMemory>
    ensures { OnOk result (into.new ≡ into.old ++ flat_map spec.conjuncts parts.now) }
{
    for part in parts {
        splice(alloc, part, into)?;
    }
    Ok(())
}

fn is_and(p: &Pure) -> bool
    ensures { result ≡ is_and p.now }
{
    match p {
        Pure::And(_) => true,
        _ => false,
    }
}

// Adds the conjuncts of a formula. Only those inside an "and" are copied.
fn add_conjuncts(alloc: Global, p: Pure, into: &mut Items<Pure>) -> Result<(), NoMemory>
    ensures { OnOk result (into.new ≡ into.old ++ spec.conjuncts p) }
{
    if is_and(&p) {
        return splice(alloc, &p, into);
    }
    into.push(p)?;
    Ok(())
}

/// The conjuncts of these items.
pub fn conjuncts(
    alloc: Global,
    n: &mut Numbering,
    trees: &[ItemTree],
) -> Result<Items<Pure>, NoMemory>
    ensures { Builds (spec.conjuncts_of (map item trees.now) n.old) result n.new }
{
    let mut all = Items::new(alloc);
    for tree in trees {
        let part = item(alloc, n, tree, false)?;
        add_conjuncts(alloc, part, &mut all)?;
    }
    Ok(all)
}
