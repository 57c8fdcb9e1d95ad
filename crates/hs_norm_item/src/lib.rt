//! The normal form of each item of a source: data types, predicates, lemmas, entailments, and the pairs of methods.
//!
//! `specs/` has each as a function from trees, which collects faults with their places. Each call builds what that
//! function builds, from the numbering before it, and leaves the numbering after it. A predicate, a lemma, an entailment
//! and a pair are each numbered by themselves.
#![tactic(auto)]

mod claim;
mod definitions;
mod entailments;
mod forms;
mod free;
mod pairs;
mod shared;

pub use claim::limit;
pub use definitions::{lemma, names_of, node, pred};
pub use entailments::entailment;
pub use forms::{Entailment, PairTree};
pub use pairs::pair;
