//! Laws of the reduction, for the proofs of the layers above. Each is the contract of a function without a body.

ghost use Rattle.hs_reduction.specs.Laws.{RebuiltBagsMakeTrue, ReducedIsSatisfiable, ReductionIsExact, CountsAreCounts, ReductionHasNoBags, NumbersAreBelow, ReductionIsOrdered, FreeAreNumbers, BagsPlainIsOfAssertion, BaglessIsExact, BaglessHasNoBags, BaglessIsOrdered};

/// Where the reduction is true, the assertion is true with the bags that the counts say.
pub fn rebuilt_bags_make_true()
    ensures { RebuiltBagsMakeTrue }
{}

/// Where the assertion is true, its reduction is true with the same numbers and some new ones.
pub fn reduced_is_satisfiable()
    ensures { ReducedIsSatisfiable }
{}

/// An assertion is satisfiable exactly where its reduction is.
pub fn reduction_is_exact()
    ensures { ReductionIsExact }
{}

/// Where the reduction is true, no count of a bag variable is negative, and equal elements have equal counts.
pub fn counts_are_counts()
    ensures { CountsAreCounts }
{}

/// The reduction has no bag literal.
pub fn reduction_has_no_bags()
    ensures { ReductionHasNoBags }
{}

/// All numbers of the reduction, bound ones included, are below the next number.
pub fn numbers_are_below()
    ensures { NumbersAreBelow }
{}

/// The sums of the reduction are in order where those of the assertion are.
pub fn reduction_is_ordered()
    ensures { ReductionIsOrdered }
{}

/// The free variables of the reduction are number variables.
pub fn free_are_numbers()
    ensures { FreeAreNumbers }
{}

/// Bag literals stand in a formula where they stand in its assertion.
pub fn bags_plain_is_of_assertion()
    ensures { BagsPlainIsOfAssertion }
{}

/// An assertion is satisfiable exactly where its plain reduction is.
pub fn bagless_is_exact()
    ensures { BaglessIsExact }
{}

/// The plain reduction has no bag literal.
pub fn bagless_has_no_bags()
    ensures { BaglessHasNoBags }
{}

/// The sums of the plain reduction are in order where those of the assertion are.
pub fn bagless_is_ordered()
    ensures { BaglessIsOrdered }
{}
