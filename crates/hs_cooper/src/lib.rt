//! Elimination of a variable from formulas of linear integer arithmetic, in 128-bit numbers.
//!
//! The results are those of plain elimination over unbounded integers, whose stages and laws stand in
//! `hs_elimination`. Where a stage has more atoms than are allowed, or a number past 128 bits, the elimination
//! stops at the first such stage and says so. `witness` goes through the cases of the third stage at given values
//! of the other variables, and gives the plain value of the variable exactly where some value works. `substitute`
//! puts a sum in the place of a variable.
#![tactic(auto)]

mod back;
mod bounds;
mod cases;
mod elimination;
mod lcm;
mod limit;
mod period;
mod search;
mod stop;
mod substitution;
mod survey;
mod third;
mod value;

pub use elimination::eliminate;
pub use search::witness;
pub use stop::Stop;
pub use substitution::substitute;
