//! Laws for the layers above. Each is the contract of a function without a body.

ghost use Rattle.hs_norm_sound.specs.Laws.{DefinitionsAreSound, GoalsAreWellFormed, GoalsHaveDisjuncts, MethodsAreDeclared, NamesAreKept, PairsAreNormal, PairsHaveDisjuncts};

/// The data types and the predicates are those of the source by their numbers, with its names and kinds. No two
/// data types and predicates have one name, no two lemmas, and no two methods.
pub fn names_are_kept()
    ensures { NamesAreKept }
{}

/// A method has the names, types and block of the method of the source, and its block uses what is declared.
pub fn methods_are_declared()
    ensures { MethodsAreDeclared }
{}

/// The predicates and the lemmas are of the normal form.
pub fn definitions_are_sound()
    ensures { DefinitionsAreSound }
{}

/// Both sides of an entailment fit the definitions beside one list of free variables, and its open variables are
/// those that are free on the right alone.
pub fn goals_are_well_formed()
    ensures { GoalsAreWellFormed }
{}

/// Both sides of an entailment of a source that tokens spell have a disjunct.
pub fn goals_have_disjuncts()
    ensures { GoalsHaveDisjuncts }
{}

/// Both formulas of a pair fit the definitions beside the parameters, `res` and the logic variables, which are
/// distinct and numbered in this order, and the variant is a light sum of the parameters and logic variables.
pub fn pairs_are_normal()
    ensures { PairsAreNormal }
{}

/// Both formulas of a pair of a source that tokens spell have a disjunct.
pub fn pairs_have_disjuncts()
    ensures { PairsHaveDisjuncts }
{}
