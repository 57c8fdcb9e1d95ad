//! What reductions of formulas with bags are made of.
//!
//! What a formula has: `add_terms`, `add_names`, `count_compounds` and `count_denied` give its element terms, bag
//! variables, compound bags and denied literals, and `reduction_comparisons` how many comparisons its reduction has,
//! before that is made. What stands in its reduction: small formulas, each exactly the assertion that its contract names,
//! and `instance`, a formula with a term for a variable, without capture. It is refused only where a number of a sum
//! passes 128 bits: where the numbers of the formula fit, and a product or the sum of two coefficients of one variable
//! does not.
#![tactic(auto)]

mod capped;
mod formula;
mod instances;
mod reading;
mod shared;
mod size;
mod sums;

pub use formula::{
    Relation, and, at_most, compare, equal, is_difference, is_least, is_single, is_sum, less, not,
    or, truth,
};
pub use instances::{Way, instance};
pub use reading::{add_names, add_terms, count_compounds, count_denied};
pub use size::reduction_comparisons;
pub use sums::{counted, variable, zero};
