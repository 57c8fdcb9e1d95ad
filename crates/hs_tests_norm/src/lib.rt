//! Tests of the normal form of sources that no line holds: as many things as there may be, and one more.
//!
//! The program `hs_tests_rows_norm` prints the normal forms and refusals of other sources.
#![tactic(auto)]

#[cfg(test)]
mod build;
#[cfg(test)]
mod heaps;
#[cfg(test)]
mod limits;
