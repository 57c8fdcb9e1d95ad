//! What the layer above uses of predicates. The function states a law; its call brings that of the layer below.

ghost use Rattle.hs_pred_lines.specs.Laws.{ShownInvariantsHold};

use hs_xpure::invariants_are_shown;

/// Where true lines show all predicates, all invariants hold.
pub fn shown_invariants_hold()
    ensures { ShownInvariantsHold }
{
    invariants_are_shown();
}
