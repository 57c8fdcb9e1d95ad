//! The plain reduction of formulas with bags to formulas on numbers, and that it is exact.
//!
//! `specs/` has the reduction as a total function: each bag has a count for each element term, and a literal is stated
//! at the element terms. An `all` in a bag is stated by instances, which put the term in the place of the variable, or
//! say that a new bound variable is equal to it; the laws hold of both. They say that an assertion is satisfiable
//! exactly where its reduction is, which bags the counts of a solution say, and that the reduction has no bag literals,
//! keeps sums in order, and has numbers below a known one. Their conditions are those of the layers above: the first
//! new number is above all numbers of the assertion, its bag literals stand outside of quantifiers, and its sums are in
//! order.
#![tactic(auto)]

mod laws;

pub use laws::{
    bagless_has_no_bags, bagless_is_exact, bagless_is_ordered, bags_plain_is_of_assertion,
    counts_are_counts, free_are_numbers, numbers_are_below, rebuilt_bags_make_true,
    reduced_is_satisfiable, reduction_has_no_bags, reduction_is_exact, reduction_is_ordered,
};
