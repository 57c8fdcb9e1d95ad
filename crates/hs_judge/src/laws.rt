//! What listed claims and right nodes say. Each function states a law; its calls bring those of the layers below.

ghost use Rattle.hs_judge.specs.Laws.{ListedEntailmentsHold, ListedPairsAreSafe, RightStatesAreConcluded};

use hs_program_rules::concluded_states_are_safe;
use hs_rules::{right_steps_keep_meaning, right_steps_stay_fresh};
use hs_xpure::invariants_are_shown;

/// Each entailment of a source whose claims are listed holds with the residue of each node that its line names.
pub fn listed_entailments_hold()
    ensures { ListedEntailmentsHold }
{
    invariants_are_shown();
    right_steps_keep_meaning();
    right_steps_stay_fresh();
}

/// The start of each pair of a sound program whose claims are listed is safe for every number of steps.
pub fn listed_pairs_are_safe()
    ensures { ListedPairsAreSafe }
{
    invariants_are_shown();
    right_steps_keep_meaning();
    right_steps_stay_fresh();
    concluded_states_are_safe();
}

/// Where definitions are sound and without lemmas, and all invariants hold, each state that a node of a list of right
/// nodes has is concluded.
pub fn right_states_are_concluded()
    ensures { RightStatesAreConcluded }
{
    right_steps_keep_meaning();
    right_steps_stay_fresh();
}
