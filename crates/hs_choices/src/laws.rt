//! What the layers above use of choices. Each law is the contract of a function that does nothing; the calls in it
//! bring the laws that its proof takes from the layers below.

ghost use Rattle.hs_choices.specs.Laws.{ClassesAreTold, QuestionsAreTold, ChoicesHaveConditions, ChoicesFall, ChoicesUseUp};

use hs_implication::implications_are_told;
use hs_question::questions_can_be_asked;
use hs_side_rules::equations_are_told;

/// The test of classes is true exactly of variables that the equations join.
pub fn classes_are_told()
    ensures { ClassesAreTold }
{}

/// The test of the question of a rule that has its condition at a well-formed goal is true exactly where the question is
/// true at every stack.
pub fn questions_are_told()
    ensures { QuestionsAreTold }
{
    questions_can_be_asked();
    implications_are_told();
}

/// Each rule that is tried has its condition, where the level is at most 3.
pub fn choices_have_conditions()
    ensures { ChoicesHaveConditions }
{
    equations_are_told();
}

/// At each rule that is tried and is no fold, no unfold and no lemma step, the subgoals weigh less than the goal.
pub fn choices_fall()
    ensures { ChoicesFall }
{
    equations_are_told();
}

/// What the question of a rule that is tried uses up is used up at the goal.
pub fn choices_use_up()
    ensures { ChoicesUseUp }
{
    equations_are_told();
}
