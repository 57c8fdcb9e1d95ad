//! Laws of trees, derivations and answers, for the proofs of the layers above. Each is the contract of a function
//! without a body. That what each rule hands on is had by each derivation is a lemma, `derivations_have` of
//! `proofs::Induct`.
ghost use Rattle.hs_calculus.specs.Laws.{DerivationsAreByChoices, PlacesAreByChoices, SearchIsComplete};

use crate::calculus::Calculus;

/// The derivations of a goal are those by its choices, in order.
pub fn derivations_are_by_choices<C: Calculus>()
    ensures { (c : C) → DerivationsAreByChoices (C.calculus c) }
{}

/// The places of a tree are its root and those below its choices, in order.
pub fn places_are_by_choices<C: Calculus>()
    ensures { (c : C) → PlacesAreByChoices (C.calculus c) }
{}

/// Of a goal whose tree is within the limit, with an answer to each question, an answer of `prove` is `Valid` exactly
/// where there is a derivation of the rank, and then the first that are wanted.
pub fn search_is_complete<C: Calculus>()
    ensures { (c : C) → SearchIsComplete (C.calculus c) (C.is_spent c) (C.is_stuck c) (C.is_refuted c) }
{}
