//! What the layers above use of questions. The law is the contract of a function that does nothing; the calls in it
//! bring the laws that its proof takes from the layer below.

ghost use Rattle.hs_question.specs.Asked.{QuestionsCanBeAsked};

use hs_xpure::{approximation_is_ordered, approximation_is_plain};

/// The sums of both sides of the question of a rule that has its condition at a well-formed goal are in order, and no bag
/// literal of them stands under a quantifier.
pub fn questions_can_be_asked()
    ensures { QuestionsCanBeAsked }
{
    approximation_is_ordered();
    approximation_is_plain();
}
