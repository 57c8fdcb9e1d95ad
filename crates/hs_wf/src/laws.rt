//! Laws of founded definitions. Each is the contract of a function without a body.

ghost use Rattle.hs_wf.specs.Laws.{DepthIsEnough, FaultsExcludeFounded, FirstFaultsAreUnique};

/// Where definitions are founded, a heap that satisfies a formula satisfies it with predicates unfolded at most
/// as deep as the heap has nodes, and once more.
pub fn depth_is_enough()
    ensures { DepthIsEnough }
{}

/// Definitions with a first fault are not founded.
pub fn faults_exclude_founded()
    ensures { FaultsExcludeFounded }
{}

/// Definitions have one first fault.
pub fn first_faults_are_unique()
    ensures { FirstFaultsAreUnique }
{}
