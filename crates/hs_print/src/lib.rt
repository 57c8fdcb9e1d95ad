//! The texts of formulas, valuations and reports.
//!
//! Each text is the one that `specs/` defines by cases. Formulas are printed under the source names of their
//! claim, or in numbered form, where each variable is its number.
#![tactic(auto)]

mod bag;
mod disjunct;
mod line;
mod linear;
mod place;
mod printing;
mod pure_text;
mod refusal;
mod report;
mod shared;
mod source_names;
mod values;
mod variables;
mod why;
mod word;

pub use line::Line;
pub use printing::{formula, numbered_formula, numbered_pure, pure, valuation, variable};
pub use refusal::Refusal;
pub use report::text;
pub use why::{Tried, Why, push_why};
pub use word::Word;
