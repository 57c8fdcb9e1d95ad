//! The normal form of a source: its names become numbers, and each refusal is its first fault.
//!
//! `specs/` has the normal form as a function from trees, which collects faults with their places. `normal`
//! answers what that function builds, or the first fault in the order of the text.
#![tactic(auto)]

mod methods;
mod resolved;
mod shared;
mod source;

pub use hs_declared::VarType;
pub use hs_norm_formula::{NormError, numbered};
pub use hs_norm_item::{Entailment, PairTree};
pub use hs_numbering::{Limit, Names};
pub use resolved::{MethodTree, Param, Resolved};
pub use source::normal;
