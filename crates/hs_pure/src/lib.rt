//! Pure formulas: linear integer arithmetic and bags, with their truth at a stack.
//!
//! `specs/` has the stack and the truth of every formula, quantifiers and bags included. A copy is an equal
//! formula. `has`, `top` and `bags_plain` tell exactly which variables occur and where bag literals stand. A
//! renamed formula is true where the formula is true under the renamed stack. `eval` gives the truth of a
//! formula without quantifiers, and `Wide` only where a number of the evaluation has more than 128 bits. The
//! functions of `laws` have no body: their contracts are the laws that the layers above use.
#![tactic(auto)]

mod bag;
mod equality;
mod equated;
mod eval;
mod laws;
mod lin;
mod pure;
mod shared;
mod valuation;
mod var;

pub use bag::Bag;
pub use eval::Wide;
pub use hs_text::NoMemory;
pub use laws::{
    and_is_all, apart_is_in_range, equated_is, free_occurs, light_is_in_range, occurs_below_top,
    or_is_any, renamed_bag_use, renamed_is_light, renamed_is_ordered, truth_is_of_free,
    valuation_counts,
};
pub use lin::Lin;
pub use pure::Pure;
pub use valuation::Valuation;
pub use var::Var;
