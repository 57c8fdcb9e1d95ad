//! Implications of linear integer arithmetic, examined by rows of equations.
//!
//! `examine` takes what the left side says, and that the right side is false, apart into rows: sums that are 0, at
//! least 0 or not 0. An equation is solved for a variable with the coefficient 1 or -1, which is replaced in the
//! other rows; ranges are tightened, and disjunctions are tested against the rows before they are split. `Implied`
//! comes only where each part is contradictory, and so the implication is true at all stacks. `Refuted` comes only
//! with values that were tried on both sides. Nothing is said of `Open`: the choice of variables and of splits, and
//! the bounds on steps and depth, change no other answer into a wrong one.
#![tactic(auto)]

mod claim;
mod clash;
mod confirm;
mod finding;
mod fourier;
mod halt;
mod known;
mod linear;
mod literal;
mod model;
mod parts;
mod question;
mod row;
mod rows;
mod shared;
mod solve;

pub use finding::Finding;
pub use question::examine;
