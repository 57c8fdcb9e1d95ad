//! A test of the search with a small calculus: which derivations it finds, and each cause but that of a question
//! without answer.
#![tactic(auto)]

#[cfg(test)]
mod answers;
pub mod toy;
