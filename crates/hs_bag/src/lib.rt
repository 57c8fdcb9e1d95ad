//! Formulas with bags, reduced to formulas on numbers, in 128-bit numbers.
//!
//! `reduce` gives a formula without bags that is satisfiable exactly where the formula is, with counts that say the bags
//! of each of its solutions, and `rebuild` gives the values of such a solution with its bags. `plain` gives exactly the
//! plain reduction, whose instances replace a variable by its term, and stops before it is made where it has a free
//! variable and more comparisons than are allowed, or where a number of an instance passes 128 bits.
#![tactic(auto)]

mod answer;
mod counts;
mod define;
mod engine;
mod error;
mod laid;
mod layout;
mod limited;
mod listed;
mod reduced;
mod reductions;
mod shared;
mod solutions;
mod stop;

pub use error::BagError;
pub use hs_counts::{Count, RebuildError, Reduced};
pub use limited::plain;
pub use reductions::reduce;
pub use solutions::rebuild;
pub use stop::Stop;
