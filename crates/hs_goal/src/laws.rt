//! Laws of goals, for the proofs of the layers above. Each is the contract of a function without a body.

ghost use Rattle.hs_goal.specs.Laws.{FittingFormulasAreSides, SidesAreOfNext, StartIsWellFormed};

/// A formula that fits beside any free variables is a side of a goal.
pub fn fitting_formulas_are_sides()
    ensures { FittingFormulasAreSides }
{}

/// A side that fits below a number fits below every greater one.
pub fn sides_are_of_next()
    ensures { SidesAreOfNext }
{}

/// A goal without used atoms is well formed where its sides and its open variables fit.
pub fn start_is_well_formed()
    ensures { StartIsWellFormed }
{}
