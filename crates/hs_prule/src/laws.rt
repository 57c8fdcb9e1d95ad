//! The law for the layers above: the contract of a function that does nothing.

ghost use Rattle.hs_prule.specs.Laws.{RightStepsAreSteps};

/// A step that is right, where the goal of its first premise is entailed with the residue there, is a right step of the
/// table of program rules.
pub fn right_steps_are_steps()
    ensures { RightStepsAreSteps }
{}
