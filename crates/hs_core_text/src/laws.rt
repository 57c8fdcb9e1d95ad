//! The law of slots, for the layers above.

ghost use Rattle.hs_core_text.specs.Laws.{SlotsPrintAsSlots};

/// The variable of a slot prints as that slot.
pub fn slots_print_as_slots()
    ensures { SlotsPrintAsSlots }
{}
