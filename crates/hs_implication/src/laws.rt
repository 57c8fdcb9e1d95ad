//! Laws of the tests, for the proofs of the layers above. Each is the contract of a function that does nothing; the calls
//! in it bring the laws that its proof takes from the layers below.

ghost use Rattle.hs_implication.specs.Implied.{SolutionsAreTold, ImplicationsAreTold};

use hs_reduction::{
    bagless_has_no_bags, bagless_is_exact, bagless_is_ordered, bags_plain_is_of_assertion,
};
use hs_truth::plain_truth_is_decided;

/// A formula in order whose bag literals stand under no quantifier passes the test exactly where some stack makes it
/// true.
pub fn solutions_are_told()
    ensures { SolutionsAreTold }
{
    bagless_is_exact();
    bagless_has_no_bags();
    bagless_is_ordered();
    bags_plain_is_of_assertion();
    plain_truth_is_decided();
}

/// Two such formulas pass the test exactly where the first implies the second at all stacks.
pub fn implications_are_told()
    ensures { ImplicationsAreTold }
{
    bagless_is_exact();
    bagless_has_no_bags();
    bagless_is_ordered();
    bags_plain_is_of_assertion();
    plain_truth_is_decided();
}
