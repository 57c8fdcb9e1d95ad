//! Formulas of heaps over user-defined data types and predicates.
//!
//! `specs/` has heaps and their disjoint union, when a heap satisfies a formula (the least fixpoint of the
//! predicates' bodies), and when an entailment holds with a residue. A copy of a value is an equal value, and
//! `same` tells equality. `has` tells exactly where a variable is free, `top` the greatest number, and `fits`,
//! `is_proper` and `Defs::sound` exactly what is of the normal form. A renamed formula is satisfied where the
//! formula is under the renamed stack, and an instantiated body where the body is at the values of the root and
//! the arguments. A `Heap` is a finite map from positive locations to nodes. The functions of `laws` have no body:
//! their contracts are the laws that the layers above use.
#![tactic(auto)]

mod copies;
mod definitions;
mod equality;
mod formula;
mod heap;
mod instance;
mod laws;
mod node;
mod proper;
mod pures;
mod rename;
mod scope;
mod seen;
mod shared;
mod sound;
mod top;

pub use definitions::{Defs, Lemma, NodeDef, PredDef};
pub use formula::{Atom, Disjunct, Formula, Of};
pub use heap::Heap;
pub use instance::{instantiate, instantiate_inv, instantiate_lemma};
pub use laws::{
    apart_may_rename, arguments_are_of_variables, atoms_are_of_variables, bound_occurs,
    conjuncts_are_of_free, instantiated_binds_new, instantiated_means_body,
    instantiated_means_invariant, renamed_is_satisfied, renamed_variables, satisfaction_is_of_free,
    satisfaction_is_of_kinds, sound_bodies_fit,
};
pub use node::HeapNode;
pub use proper::is_proper;
