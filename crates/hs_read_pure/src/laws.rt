//! What holds of all tokens. The functions do nothing: each contract states a law.

ghost use Rattle.hs_read_pure.specs.Laws.{FormulasAreRead, FormulasAreUnique, PureFormulasAreRead, PureFormulasAreUnique};

/// A pure formula that the grammar has within the nesting is read: nothing of it is refused.
pub fn pure_formulas_are_read()
    ensures { PureFormulasAreRead }
{}

/// A formula that the grammar has within the nesting is read: nothing of it is refused.
pub fn formulas_are_read()
    ensures { FormulasAreRead }
{}

/// Tokens spell at most one pure formula.
pub fn pure_formulas_are_unique()
    ensures { PureFormulasAreUnique }
{}

/// Tokens spell at most one formula.
pub fn formulas_are_unique()
    ensures { FormulasAreUnique }
{}
