//! Printed formulas are read back.
//!
//! The numbered form of a writable formula, as `hs_print` writes it, has tokens, the reader of `hs_read_pure` takes
//! them for a tree, and `numbered` of `hs_norm_formula` gives the formula of that tree. What is writable is told by
//! `hs_written`.
#![tactic(auto)]

mod laws;

pub use laws::{
    formulas_are_written, formulas_come_back, pure_formulas_are_written, pure_formulas_come_back,
};
