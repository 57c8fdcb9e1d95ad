//! The line of a node.

ghost use Rattle.std.specs.Prelude.{◌<◌, ◌^◌, ℤ, List, length, IfOk, MatchOption};
ghost use Rattle.hs_heap.specs.declared.node.HeapNode.{HeapNode};
ghost use Rattle.hs_heaptext.specs.Reading.{StatesFields, StatesNode, StatesEntry, IsEntryLine};

use crate::line::{behind, cut};
use crate::number::value;
use crate::values::{BLANK, values};
use hs_heap::{Defs, HeapNode, NodeDef};
use hs_pure::NoMemory;
use sqlite_items::Items;
use std::alloc::Global;

// The values of a node of the data type, where the text is its name and a value for each field.
fn fields(alloc: Global, def: &NodeDef, text: &[u8]) -> Result<Option<Items<i128>>, NoMemory>
    ensures { IfOk result (λ found. MatchOption found ((xs : List ℤ) → ¬ (StatesFields def.now text.now xs)) (λ xs. StatesFields def.now text.now xs)) }
{
    let Some(rest) = behind(text, def.name.as_str().as_bytes()) else {
        return Ok(None);
    };
    let Some(values) = values(alloc, rest)? else {
        return Ok(None);
    };
    if values.len() != def.fields.len() {
        return Ok(None);
    }
    Ok(Some(values))
}

// The node whose text this is, of the first data type that it fits.
fn node(alloc: Global, defs: &Defs, text: &[u8]) -> Result<Option<HeapNode>, NoMemory>
    requires { length defs.now.nodes < 2 ^ 32 }
    ensures { IfOk result (λ found. MatchOption found ((n : HeapNode) → ¬ (StatesNode defs.now text.now n)) (λ n. StatesNode defs.now text.now n)) }
{
    let mut of = 0;
    for def in defs.nodes.as_slice() {
        of += 1;
        if let Some(values) = fields(alloc, def, text)? {
            return Ok(Some(HeapNode { of, values }));
        }
    }
    Ok(None)
}

/// The node and its location, above `low`, whose line this is.
pub fn entry(
    alloc: Global,
    defs: &Defs,
    low: i128,
    line: &[u8],
) -> Result<Option<(i128, HeapNode)>, NoMemory>
    requires { length defs.now.nodes < 2 ^ 32 }
    ensures { IfOk result (λ found. MatchOption found (¬ (IsEntryLine defs.now low line.now)) (λ e. StatesEntry defs.now low line.now e)) }
{
    let (word, rest) = cut(line, BLANK);
    let Some(place) = value(word) else {
        return Ok(None);
    };
    let Some((_, text)) = rest.split_first() else {
        return Ok(None);
    };
    if place <= low {
        return Ok(None);
    }
    let Some(node) = node(alloc, defs, text)? else {
        return Ok(None);
    };
    Ok(Some((place, node)))
}
