//! Heaps and renamed formulas.
ghost use Rattle.hs_tests_rows_preds.specs.Renaming.{MayBeRenamed};

use crate::given::NoRow;
use hs_heap::{Defs, Formula, Heap, HeapNode};
use hs_print::numbered_formula;
use hs_pure::Var;
use sqlite_items::Items;
use std::alloc::Global;

// Puts a node of the first data type at a location, which is its value, and tells whether one was there.
fn put(alloc: Global, heap: &mut Heap, loc: i128) -> Result<bool, NoRow> {
    if loc <= 0 {
        return Err(NoRow);
    }
    let node = HeapNode {
        of: 1,
        values: Items::from_slice(alloc, &[loc])?,
    };
    Ok(heap.put(loc, node)?.is_some())
}

fn push_nodes(out: &mut String, heap: &Heap) -> Result<(), NoRow> {
    for (loc, node) in heap.iter() {
        let of = node.of;
        write!(out, "{loc}: {of}; ")?;
    }
    Ok(())
}

/// The heap with nodes at three locations, its least free place, and what was found.
pub fn push_heap(alloc: Global, out: &mut String, locs: (i128, i128, i128)) -> Result<(), NoRow> {
    let mut heap = Heap::new(alloc);
    let first = put(alloc, &mut heap, locs.0)?;
    let second = put(alloc, &mut heap, locs.1)?;
    let third = put(alloc, &mut heap, locs.2)?;
    push_nodes(out, &heap)?;
    let free = heap.free_place();
    let one = heap.get(1).is_some();
    write!(
        out,
        "free {free}; at 1 {one}; replaced {first} {second} {third}"
    )?;
    Ok(())
}

/// The formula with a variable in the place of another, and whether a copy of it is equal.
pub fn push_renamed(
    alloc: Global,
    out: &mut String,
    defs: &Defs,
    f: &Formula,
    from: u32,
    to: u32,
) -> Result<(), NoRow>
    requires { MayBeRenamed f.now }
{
    let from = Var {
        number: from,
        bag: false,
    };
    let to = Var {
        number: to,
        bag: false,
    };
    let renamed = f.rename(alloc, &[(from, to)])?;
    let same = renamed.same(&renamed.copy(alloc)?);
    let text = numbered_formula(alloc, &renamed, defs)?;
    write!(out, "{text}; copy {same}")?;
    Ok(())
}
