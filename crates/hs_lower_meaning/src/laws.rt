//! The law for the layers above. It is the contract of a function without a body.

ghost use Rattle.hs_core.specs.Machine.{IsFree};
ghost use Rattle.hs_heap.specs.Heap.{IsFreePlace};
ghost use Rattle.hs_lower_meaning.specs.Laws.{BlocksAreRun};

/// What the block of a method does, the lowered method does: it returns the same result with the same heap, or
/// faults at the same location. So it is where a new node lies at any free location, and where at the least.
pub fn blocks_are_run()
    ensures any { BlocksAreRun IsFree }
    ensures least { BlocksAreRun IsFreePlace }
{}
