//! Laws of core programs and their faults. Each is the contract of a function that does nothing else.

ghost use Rattle.hs_core_lines.specs.Laws.{CoreLinesAreUnique, LoweringFaultsAreUnique, ProgramsHaveNoLoweringFault};

/// A source has one fault at most.
pub fn lowering_faults_are_unique()
    ensures { LoweringFaultsAreUnique }
{}

/// A source with a core program has no fault.
pub fn programs_have_no_lowering_fault()
    ensures { ProgramsHaveNoLoweringFault }
{}

/// A source has one list of lines at most.
pub fn core_lines_are_unique()
    ensures { CoreLinesAreUnique }
{}
