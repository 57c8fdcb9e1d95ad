//! The truth of a formula at a stack is decided, also with bags.
//!
//! At one stack bags are finite, so each bag literal is told by the elements of its bags. The function has no body: its
//! contract is the law that the layers above use.
#![tactic(auto)]

ghost use Rattle.hs_truth.specs.Laws.{PlainTruthIsDecided};

/// A formula in order whose bag literals stand outside of quantifiers is true or is not.
pub fn plain_truth_is_decided()
    ensures { PlainTruthIsDecided }
{}
