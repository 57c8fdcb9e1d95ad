//! Laws of proofs, for the layers above. Each is the contract of a function that does nothing; a call in it brings the
//! law that its proof takes from a lower layer.

ghost use Rattle.hs_steps.specs.Laws.{ProofsHold, ProofsAreFresh, JoinedProofsAreProofs, ResidueIsShown};

use hs_rules::{right_steps_keep_meaning, right_steps_stay_fresh};

/// A goal with a proof holds, where the definitions are sound, invariants hold and lemmas hold.
pub fn proofs_hold()
    ensures { ProofsHold }
{
    right_steps_keep_meaning();
}

/// The residue of a proof keeps numbers apart.
pub fn proofs_are_fresh()
    ensures { ProofsAreFresh }
{
    right_steps_stay_fresh();
}

/// Proofs of the premises of a right step, joined, prove what it concludes.
pub fn joined_proofs_are_proofs()
    ensures { JoinedProofsAreProofs }
{}

/// A proof of a goal with a residue shows that residue.
pub fn residue_is_shown()
    ensures { ResidueIsShown }
{}
