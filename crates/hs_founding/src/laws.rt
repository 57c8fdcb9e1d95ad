//! Laws of such refusals. Each is the contract of a function that does nothing else.

ghost use Rattle.hs_founding.specs.Laws.{FaultsAreUnique, FoundedHaveNoFault};

use hs_wf::{faults_exclude_founded, first_faults_are_unique};

/// Founded definitions have no fault.
pub fn founded_have_no_fault()
    ensures { FoundedHaveNoFault }
{
    faults_exclude_founded();
}

/// Definitions have one fault at most.
pub fn faults_are_unique()
    ensures { FaultsAreUnique }
{
    first_faults_are_unique();
}
