//! What holds of all answers. The function does nothing: its contract states a law.

ghost use Rattle.hs_verify.specs.Laws.{VerificationIsComplete};

/// Where the states of a tree and the searches for their goals are within the limits, its pair is accepted exactly where
/// the tree is closed, and else the state that is answered has no goal with a derivation.
pub fn verification_is_complete()
    ensures { VerificationIsComplete }
{}
