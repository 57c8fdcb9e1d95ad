//! Laws for the layers above. Each is the contract of a function without a body.

ghost use Rattle.hs_norm_formula.specs.Laws.{ConjunctsAreSpliced, LightIsKept, NamesStayFew, SumIsOrdered};

/// The conjuncts of an "and" are those of its members, at every depth, any other formula is its only
/// conjunct, and no conjunct is an "and".
pub fn conjuncts_are_spliced()
    ensures { ConjunctsAreSpliced }
{}

/// A sum whose numbers, with 1 for each variable without a number, add up to at most 2^126 is not refused,
/// and its absolute coefficients and its constant add up to at most that.
pub fn light_is_kept()
    ensures { LightIsKept }
{}

/// A sum whose variables are of numbers has its terms by rising number, and no coefficient is 0.
pub fn sum_is_ordered()
    ensures { SumIsOrdered }
{}

/// No name, expression or formula gives a number where 1000 are given.
pub fn names_stay_few()
    ensures { NamesStayFew }
{}
