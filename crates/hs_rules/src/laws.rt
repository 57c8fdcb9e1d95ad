//! Laws of right steps and subgoals, for the proofs of the layers above. Each is the contract of a function that does
//! nothing; a call in it brings the law that its proof takes from a lower layer.

ghost use Rattle.hs_rules.specs.Laws.{RightStepsHold, RightStepsKeepMeaning, RightStepsStayFresh, SubgoalsAreAnchored, SubgoalsAreWellFormed, SubgoalsGrow};

use hs_xpure::approximation_is_true;

/// A right step holds over heaps of each size where its premises do.
pub fn right_steps_hold()
    ensures { RightStepsHold }
{
    approximation_is_true();
}

/// A right step holds where its premises do.
pub fn right_steps_keep_meaning()
    ensures { RightStepsKeepMeaning }
{
    approximation_is_true();
}

/// The subgoals of an anchored goal are anchored.
pub fn subgoals_are_anchored()
    ensures { SubgoalsAreAnchored }
{}

/// A right step's residue keeps numbers apart where those of its premises do.
pub fn right_steps_stay_fresh()
    ensures { RightStepsStayFresh }
{}

/// The subgoals of a well-formed goal are well formed.
pub fn subgoals_are_well_formed()
    ensures { SubgoalsAreWellFormed }
{}

/// The new numbers of a subgoal do not begin before those of the goal.
pub fn subgoals_grow()
    ensures { SubgoalsGrow }
{}
