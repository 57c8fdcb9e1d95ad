//! Whether a formula on numbers and bags has a solution, and whether one implies another, by total tests.
//!
//! `specs/` has the tests: bags are reduced to their counts, the free variables are bound and the quantifiers eliminated,
//! over unbounded integers and without limits, so that a choice by them is a function of the formulas. The functions
//! return nothing: their contracts are the laws that the layers above use.
#![tactic(auto)]

mod laws;

pub use laws::{implications_are_told, solutions_are_told};
