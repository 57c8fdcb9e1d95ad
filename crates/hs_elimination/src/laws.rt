//! Laws of elimination, for the proofs of the layers above. Each is the contract of a function without a body.

ghost use Rattle.hs_elimination.specs.Laws.{EliminationKeepsTruth, EliminationKeepsOrder, EliminationLacks, EliminationAddsNone, EliminationIsSimple, OrderIsOfAssertion, BagsAreOfAssertion, TruthIsTested, TruthIsDecided};

/// The result is true exactly where some integer makes the assertion true.
pub fn elimination_keeps_truth()
    ensures { EliminationKeepsTruth }
{}

/// The sums of the result are in order.
pub fn elimination_keeps_order()
    ensures { EliminationKeepsOrder }
{}

/// The variable does not occur free in the result.
pub fn elimination_lacks()
    ensures { EliminationLacks }
{}

/// What occurs free in the result occurs free in the assertion.
pub fn elimination_adds_none()
    ensures { EliminationAddsNone }
{}

/// The result has neither quantifiers nor bag literals.
pub fn elimination_is_simple()
    ensures { EliminationIsSimple }
{}

/// A formula is in order exactly where its assertion is.
pub fn order_is_of_assertion()
    ensures { OrderIsOfAssertion }
{}

/// A formula has bag literals exactly where its assertion has.
pub fn bags_are_of_assertion()
    ensures { BagsAreOfAssertion }
{}

/// The truth of a formula in order without bag literals is told by a test.
pub fn truth_is_tested()
    ensures { TruthIsTested }
{}

/// A formula in order without bag literals is true or is not.
pub fn truth_is_decided()
    ensures { TruthIsDecided }
{}
