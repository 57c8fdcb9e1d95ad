//! Exact values of sums.
//!
//! `exact_value` gives the value of a sum at a valuation, or none exactly where the value has more than 128 bits,
//! however many bits its products and partial sums have.
#![tactic(auto)]

mod limbs;
mod value;

pub use value::exact_value;
