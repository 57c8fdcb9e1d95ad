//! Expressions, pure formulas and formulas of heaps, read from tokens.
//!
//! `specs/Grammar.antt` has the grammar, and the other files of `specs/` the parsers: what is read is what
//! the parser of that name gives, and what it gives is a tree that the grammar spells by the tokens that it
//! took. Each parser is told how many levels of nesting are left. What the grammar has within the nesting is
//! read, and tokens spell at most one tree, which the contracts of [`formulas_are_read`] and its neighbours
//! state.
#![tactic(auto)]

mod expressions;
mod formulas;
mod items;
mod laws;
mod read;

pub use expressions::{expr, name, variable};
pub use formulas::{disjunct, formula, names};
pub use items::{conj, relation};
pub use laws::{
    formulas_are_read, formulas_are_unique, pure_formulas_are_read, pure_formulas_are_unique,
};
pub use read::{read_formula, read_pure};
