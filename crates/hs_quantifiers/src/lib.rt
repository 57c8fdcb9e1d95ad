//! Quantifiers over the integers, eliminated innermost first, in 128-bit numbers.
//!
//! The result is that of `without_quantifiers` of `hs_elimination`. Where a stage of an elimination has more atoms than
//! are allowed, or a number past 128 bits, it stops and says so.
#![tactic(auto)]

mod formula;
mod quantifiers;

pub use quantifiers::without_quantifiers;
