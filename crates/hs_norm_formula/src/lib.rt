//! The normal form of formulas: names become numbers, arguments become variables, nested "and"s become lists.
//!
//! `specs/` has the normal form as a function from trees. Each public call says that it built exactly that,
//! and which faults it met. `numbered` reads a formula whose variables are written by their numbers, and
//! answers the first fault where there is one.
#![tactic(auto)]

mod by_number;
mod expr;
mod formula;
mod item;
mod laws;
mod shared;
mod splice;
mod sum;
mod table;
mod term;

pub use by_number::{NormError, error_of, numbered};
pub use expr::{bag_expr, is_bag, number_expr};
pub use formula::{disjunct, normal_formula};
pub use item::conjunction;
pub use laws::{conjuncts_are_spliced, light_is_kept, names_stay_few, sum_is_ordered};
pub use splice::conjuncts;
pub use sum::number_var;
pub use table::{Entry, declared, places};
