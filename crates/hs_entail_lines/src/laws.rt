//! What the layer above uses of entailments. The function states a law; its calls bring those of the layers below.

ghost use Rattle.hs_entail_lines.specs.Laws.{EntailmentsAreGoals};

use hs_goal::{fitting_formulas_are_sides, start_is_well_formed};

/// The goal of an entailment in normal form whose right side has a disjunct is well formed.
pub fn entailments_are_goals()
    ensures { EntailmentsAreGoals }
{
    fitting_formulas_are_sides();
    start_is_well_formed();
}
