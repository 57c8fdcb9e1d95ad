//! Sums in the place of variables, in 128-bit numbers.
//!
//! `replaced` gives a formula without quantifiers and bag literals with a sum in the place of a variable. It is true
//! exactly where the formula is true with what the sum is worth as the variable. `substitute_lin`, `times`,
//! `times_plus` and `difference` do the same for sums. Each is exact: it is refused only where a number of its result
//! passes 128 bits, whatever the numbers on the way.
#![tactic(auto)]

mod factor;
mod linear;
mod replace;

pub use linear::{difference, substitute_lin, times, times_plus};
pub use replace::replaced;
