//! Writing a heap text.

ghost use Rattle.std.specs.Prelude.{◌≡◌, ◌++◌, IfOk, OnOk};
ghost use Rattle.std.specs.Option.{option_copied};
ghost use Rattle.std.specs.String.{string_bytes};
ghost use Rattle.hs_heap.specs.Sound.{node_at};
ghost use Rattle.hs_heaptext.specs.Values.{values_text};
ghost use Rattle.hs_heaptext.specs.Text.{ended, name_of, entry_text, heap_text};

use hs_heap::{Defs, Heap, HeapNode, NodeDef};
use hs_pure::NoMemory;
use std::alloc::{AllocError, Global};

// The data type of a number from 1.
fn node_def(defs: &Defs, number: u32) -> Option<&NodeDef>
    ensures { option_copied result ≡ node_at defs.now number }
{
    if number == 0 {
        return None;
    }
    defs.nodes.as_slice().get(number as usize - 1)
}

// Adds values, each after a blank.
fn push_values(out: &mut String, values: &[i128]) -> Result<(), AllocError>
    ensures { OnOk result (string_bytes out.new ≡ string_bytes out.old ++ values_text values.now) }
{
    for value in values {
        write!(out, " {value}")?;
    }
    Ok(())
}

fn push_name(out: &mut String, def: Option<&NodeDef>) -> Result<(), AllocError>
    ensures { OnOk result (string_bytes out.new ≡ string_bytes out.old ++ name_of (option_copied def.entry)) }
{
    match def {
        None => Ok(()),
        Some(def) => {
            let name = &def.name;
            write!(out, "{name}")
        }
    }
}

// Adds the line of a node.
fn push_entry(out: &mut String, defs: &Defs, place: i128, node: &HeapNode) -> Result<(), AllocError>
    ensures { OnOk result (string_bytes out.new ≡ string_bytes out.old ++ ended (entry_text defs.now (place, node.now))) }
{
    write!(out, "{place} ")?;
    push_name(out, node_def(defs, node.of))?;
    push_values(out, node.values.as_slice())?;
    write!(out, "\n")
}

/// The text of arguments and a heap. Each data type of the heap's nodes is to be there: one that is not prints as
/// the empty name.
pub fn write_heap(
    alloc: Global,
    defs: &Defs,
    args: &[i128],
    heap: &Heap,
) -> Result<String, NoMemory>
    ensures { IfOk result (λ text. string_bytes text ≡ heap_text defs.now args.now heap.now) }
{
    let mut out = String::new(alloc);
    write!(out, "heap 1\nargs")?;
    push_values(&mut out, args)?;
    write!(out, "\n")?;
    for (place, node) in heap.iter() {
        push_entry(&mut out, defs, *place, node)?;
    }
    Ok(out)
}
