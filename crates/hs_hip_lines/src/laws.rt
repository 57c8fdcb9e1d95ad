//! What the layers above use of the lines of pairs. The function states a law; its calls bring those of the layers below.

ghost use Rattle.hs_hip_lines.specs.Laws.{AcceptedPairsAreSafe};

use hs_judge::right_states_are_concluded;
use hs_program_rules::concluded_states_are_safe;

/// Where all invariants hold and the true lines of a program accept every pair, the start of each pair is safe for every
/// number of steps.
pub fn accepted_pairs_are_safe()
    ensures { AcceptedPairsAreSafe }
{
    right_states_are_concluded();
    concluded_states_are_safe();
}
