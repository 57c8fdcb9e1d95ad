//! The law for the layers above.

ghost use Rattle.hs_lower_set.specs.Laws.{LoweredProgramsAreSet};

/// The program that the translation gives reads no slot that is not set.
pub fn lowered_programs_are_set()
    ensures { LoweredProgramsAreSet }
{}
