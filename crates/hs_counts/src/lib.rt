//! Counts of bags: what a reduction answers, and the bags that a solution of it says.
//!
//! A count says how often the value of an element is in a bag variable. `specs/` has the stack with the bags that a
//! list of counts says, and the list of a reduction's layout, whose bags are the rebuilt ones. `rebuild_bags` gives
//! exactly that stack, for every list and every valuation. The functions of `laws` have no body: their contracts are
//! the laws that the layers above use.
#![tactic(auto)]

mod count;
mod elements;
mod laws;
mod rebuild;
mod shared;
mod value;

pub use count::{Count, Reduced};
pub use laws::{
    counts_are_said, items_are_below, nothing_else_is_said, rebuilt_by_counts, right_items,
};
pub use rebuild::{RebuildError, rebuild_bags};
