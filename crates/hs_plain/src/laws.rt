//! Laws of questions, for the proofs of the layers above. Each is the contract of a function without a body.

ghost use Rattle.hs_plain.specs.Laws.{FreeVariablesAreFree, FreeVariablesRise};

/// The free variables of a question are those that occur free.
pub fn free_variables_are_free()
    ensures { FreeVariablesAreFree }
{}

/// The free variables of a question rise by number.
pub fn free_variables_rise()
    ensures { FreeVariablesRise }
{}
