//! A heap that remembers where to look for a free location.

ghost use Rattle.std.specs.Prelude.{◌≡◌, pos, ◌<ℤ◌, OnOk, OnErr};
ghost use Rattle.std.specs.Option.{option_copied};
ghost use Rattle.hs_heap.specs.Heap.{find_node, put_node, IsFreePlace, IsHeap};

use hs_heap::{Heap, HeapNode};
use hs_pure::NoMemory;
use std::marker::Model;

// How many locations are looked at one by one, before the whole heap is gone through.
const NEAR: u64 = 64;

// A heap, and a location below which each has a node.
#[derive(Drop)]
pub struct Arena {
    heap: Heap,
    low: u64,
}

impl Model for Arena {
    ghost use Rattle.hs_heap.specs.Heap.{Heap};
    ghost use Rattle.hs_machine.specs.Arena.{AreTaken};

    ghost Value = { Heap };

    ghost view = { λ g. g.heap };

    ghost invariant = { λ g. AreTaken g.heap g.low };
}

impl Arena {
    // The heap, of which nothing is known.
    #[tactic(auto, using(crate::proofs::Arenas::none_taken))]
    pub fn new(heap: Heap) -> Arena
        ensures { result ≡ heap }
    {
        Arena { heap, low: 1 }
    }

    // The heap alone.
    pub fn into_heap(self) -> Heap
        ensures { result ≡ self }
    {
        self.heap
    }

    // The node at a location.
    pub fn get(&self, loc: i128) -> Option<&HeapNode>
        ensures { option_copied result ≡ find_node self.now loc }
    {
        self.heap.get(loc)
    }

    // Puts a node at a location.
    pub fn put(&mut self, loc: i128, node: HeapNode) -> Result<(), NoMemory>
        requires { pos 0 <ℤ loc }
        ensures ok { OnOk result (self.new ≡ put_node self.old loc node) }
        ensures err { OnErr result (self.new ≡ self.old) }
    {
        self.heap.put(loc, node)?;
        Ok(())
    }

    // The least location without a node, where those close to the last one found are looked at first.
    #[tactic(auto, using(crate::proofs::Arenas::free_taken))]
    pub fn free_place(&mut self) -> i128
        ensures place { IsFreePlace self.old result }
        ensures same { self.new ≡ self.old }
    {
        let place = self.first_free();
        if place < 1 << 63 {
            self.low = place as u64;
        }
        place
    }

    #[tactic(auto, using(crate::proofs::Arenas::taken_free, crate::proofs::Arenas::taken_more))]
    fn first_free(&self) -> i128
        ensures { IsFreePlace self.now result }
    {
        for place in self.low..self.low.saturating_add(NEAR) {
            let here = i128::from(place);
            if self.heap.get(here).is_none() {
                return here;
            }
        }
        self.heap.free_place()
    }

    // The locations are positive and rise: a fact for the proofs above.
    pub fn rises(&self)
        ensures { IsHeap self.now }
    {
        self.heap.rises();
    }
}
