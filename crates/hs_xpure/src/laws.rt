//! Laws of approximations, for the proofs of the layers above. Each is the contract of a function without a body.

ghost use Rattle.hs_xpure.specs.Laws.{ApproximationIsTrue, InvariantsAreShown, NewNumbersAreInRange, ApproximationIsOrdered, ApproximationIsPlain, PremiseCanBeAsked, PremiseIsLow, PremiseCanBeFormed, PremiseTakesFew};

/// Where invariants hold and a heap satisfies atoms, their approximation is true at every level, for some values
/// of its new numbers.
pub fn approximation_is_true()
    ensures { ApproximationIsTrue }
{}

/// Where each predicate's invariant follows from its body at level 0, invariants hold.
pub fn invariants_are_shown()
    ensures { InvariantsAreShown }
{}

/// What occurs in the approximation of atoms is of the atoms, or numbered from the first new number on and below
/// the next one.
pub fn new_numbers_are_in_range()
    ensures { NewNumbersAreInRange }
{}

/// The sums of the approximation of atoms are in order.
pub fn approximation_is_ordered()
    ensures { ApproximationIsOrdered }
{}

/// No bag literal of the approximation of atoms stands under a quantifier.
pub fn approximation_is_plain()
    ensures { ApproximationIsPlain }
{}

/// The sums of the question that shows an invariant are in order, and no bag literal of it stands under a quantifier.
pub fn premise_can_be_asked()
    ensures { PremiseCanBeAsked }
{}

/// The numbers of that question are below 2^31.
pub fn premise_is_low()
    ensures { PremiseIsLow }
{}

/// That question's left side can be formed by `body`.
pub fn premise_can_be_formed()
    ensures { PremiseCanBeFormed }
{}

/// It takes at most 2^21 new numbers.
pub fn premise_takes_few()
    ensures { PremiseTakesFew }
{}
