//! Laws of formulas and definitions, for the proofs of the layers above. Each is the contract of a function
//! without a body.

ghost use Rattle.hs_heap.specs.Laws.{ArgumentsAreOfVariables, ConjunctsAreOfFree, AtomsAreOfVariables, SatisfactionIsOfFree, SatisfactionIsOfKinds, BoundOccurs, ApartMayRename, RenamedIsSatisfied, RenamedVariables, SoundBodiesFit, InstantiatedMeansBody, InstantiatedMeansInvariant, InstantiatedBindsNew};

/// Stacks that agree on variables give one list of arguments.
pub fn arguments_are_of_variables()
    ensures { ArgumentsAreOfVariables }
{}

/// Stacks that agree on the free variables of conjuncts make the same of them true.
pub fn conjuncts_are_of_free()
    ensures { ConjunctsAreOfFree }
{}

/// Stacks that agree on the variables of atoms give them one meaning, at each depth.
pub fn atoms_are_of_variables()
    ensures { AtomsAreOfVariables }
{}

/// Stacks that agree on the free variables of a formula satisfy it with the same heaps, at each depth.
pub fn satisfaction_is_of_free()
    ensures { SatisfactionIsOfFree }
{}

/// Where kinds fit, the parts of the variables' own kinds are enough.
pub fn satisfaction_is_of_kinds()
    ensures { SatisfactionIsOfKinds }
{}

/// What is bound occurs.
pub fn bound_occurs()
    ensures { BoundOccurs }
{}

/// A renaming that keeps apart what occurs in a disjunct in order may rename it.
pub fn apart_may_rename()
    ensures { ApartMayRename }
{}

/// A renamed formula is satisfied where the formula is at the stack before the renaming.
pub fn renamed_is_satisfied()
    ensures { RenamedIsSatisfied }
{}

/// What is free, is bound or occurs in a renamed formula is what such a variable becomes.
pub fn renamed_variables()
    ensures { RenamedVariables }
{}

/// The bodies, invariants and lemmas of sound definitions fit.
pub fn sound_bodies_fit()
    ensures { SoundBodiesFit }
{}

/// An instantiated body is satisfied where the body is at the values of the root and the arguments.
pub fn instantiated_means_body()
    ensures { InstantiatedMeansBody }
{}

/// An instantiated invariant is true where the invariant is at the values of the root and the arguments.
pub fn instantiated_means_invariant()
    ensures { InstantiatedMeansInvariant }
{}

/// What an instantiated body binds has a new number, and what is free in it is the root or an argument.
pub fn instantiated_binds_new()
    ensures { InstantiatedBindsNew }
{}
