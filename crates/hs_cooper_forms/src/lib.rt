//! Formulas in negation normal form, with sums in 128-bit numbers: what the elimination of a variable is built of.
//!
//! `normalize` gives the first stage of plain elimination, evaluated, and `apply` changes each literal of a formula
//! as the second and the third stage do. `Gathered` joins members one by one, as evaluation joins them. A number is
//! refused only where it passes 128 bits.
#![tactic(auto)]

mod change;
mod gather;
mod linear;
mod nnf;
mod normal;
mod refusal;
mod sign;

pub use change::{Change, apply, at_low};
pub use gather::Gathered;
pub use linear::{coefficient, constant, negate_all, rest, same_lin, shifted, single};
pub use nnf::{Connective, Literal, Nnf, Relation, evaluated};
pub use normal::{count_normal, normalize};
pub use refusal::Refusal;
pub use sign::Sign;
