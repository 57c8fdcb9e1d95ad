ghost use Rattle.std.specs.Prelude.{◌≡◌, ◌↔◌, [], pos, ◌<ℤ◌, IsTrue, IfOk, OnOk, OnErr};
ghost use Rattle.std.specs.Option.{option_copied};
ghost use Rattle.hs_heap.specs.Heap.{find_node, put_node, IsFreePlace, IsHeap};
ghost use Rattle.hs_heap.specs.Sound.{HeapFits};

use crate::definitions::Defs;
use crate::node::HeapNode;
use hs_pure::NoMemory;
use std::alloc::Global;
use std::collections::BTreeMap;
use std::collections::btree_map::Iter;
use std::marker::Model;

/// A heap: a finite map from locations, which are positive, to nodes.
#[derive(Drop)]
pub struct Heap {
    nodes: BTreeMap<i128, HeapNode>,
}

impl Model for Heap {
    ghost use Rattle.hs_heap.specs.Heap.{Heap, IsHeap};

    ghost Value = { Heap };

    ghost view = { λ h. h.nodes.entries };

    ghost invariant = { λ h. IsHeap h.nodes.entries };
}

impl Heap {
    /// A heap without nodes.
    pub fn new(alloc: Global) -> Heap
        ensures { result ≡ [] }
    {
        Heap {
            nodes: BTreeMap::new(alloc),
        }
    }

    /// The node at a location.
    pub fn get(&self, loc: i128) -> Option<&HeapNode>
        ensures { option_copied result ≡ find_node self.now loc }
    {
        self.nodes.get(&loc)
    }

    /// Puts a node at a location, and answers the one that was there.
    pub fn put(&mut self, loc: i128, node: HeapNode) -> Result<Option<HeapNode>, NoMemory>
        requires { pos 0 <ℤ loc }
        ensures old { IfOk result (λ old. old ≡ find_node self.old loc) }
        ensures ok { OnOk result (self.new ≡ put_node self.old loc node) }
        ensures err { OnErr result (self.new ≡ self.old) }
    {
        let old = self.nodes.insert(loc, node)?;
        Ok(old)
    }

    /// The nodes with their locations, by rising location.
    pub fn iter(&self) -> Iter<'_, i128, HeapNode>
        ensures { result ≡ self.now }
    {
        self.nodes.iter()
    }

    /// The least location without a node.
    pub fn free_place(&self) -> i128
        ensures { IsFreePlace self.now result }
    {
        let mut place = 1u64;
        for loc in self.nodes.keys() {
            let here = i128::from(place);
            if *loc != here {
                return here;
            }
            place += 1;
        }
        i128::from(place)
    }

    /// Whether each node fits the definitions, as `HeapNode::fits` tells. It takes no memory.
    pub fn fits(&self, defs: &Defs) -> bool
        ensures { IsTrue result ↔ HeapFits defs.now self.now }
    {
        for node in self.nodes.values() {
            if !node.test(defs) {
                return false;
            }
        }
        true
    }

    /// The locations are positive and rise: a fact for the proofs above.
    pub fn rises(&self)
        ensures { IsHeap self.now }
    {
        let _nodes = &self.nodes;
    }
}
