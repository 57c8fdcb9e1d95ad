ghost use Rattle.std.specs.Prelude.{◌≡◌, ◌↔◌, IsTrue, IfOk};
ghost use Rattle.std.specs.Option.{option_copied};
ghost use Rattle.hs_heap.specs.Sound.{NodeFits};
ghost use Rattle.hs_heap.specs.Tests.{has_fields, node_fits};

use crate::definitions::{Defs, NodeDef};
use hs_pure::NoMemory;
use sqlite_items::Items;
use std::alloc::Global;

/// A node of a heap: its data type, by number from 1, and a value for each field.
#[derive(Debug, Drop)]
pub struct HeapNode {
    pub of: u32,
    pub values: Items<i128>,
}

impl HeapNode {
    /// An equal node.
    pub fn copy(&self, alloc: Global) -> Result<HeapNode, NoMemory>
        ensures { IfOk result (λ n. n ≡ self.now) }
    {
        Ok(HeapNode {
            of: self.of,
            values: Items::from_slice(alloc, self.values.as_slice())?,
        })
    }

    /// Whether the data type is there, and the node has one value for each of its fields. It takes no memory.
    pub fn fits(&self, defs: &Defs) -> bool
        ensures { IsTrue result ↔ NodeFits defs.now self.now }
    {
        self.test(defs)
    }

    pub(crate) fn test(&self, defs: &Defs) -> bool
        ensures { result ≡ node_fits defs.now self.now }
    {
        has_fields(defs.node(self.of), self.values.len())
    }
}

fn has_fields(node: Option<&NodeDef>, count: usize) -> bool
    ensures { result ≡ has_fields (option_copied node.entry) count }
{
    match node {
        Some(node) => node.fields.len() == count,
        None => false,
    }
}
