//! What the block of a method speaks of, for its translation to a core program.
//!
//! `Scope::of` gives the variables of a method, which are its parameters and then the locals of its block. A scope
//! finds by name the slot and the type of a variable, the number of a data type or of a method, and a field, each
//! exactly as the definitions of `specs/` say. `bare` and `is_null` tell what an
//! expression is, and `term_of` gives its term over slots.
#![tactic(auto)]

mod expr;
mod locals;
mod scope;
mod shared;
mod sum;
mod variable;

pub use expr::{bare, is_null, part_variable, parts};
pub use scope::Scope;
pub use sum::term_of;
pub use variable::{Field, Variable, field_type};
