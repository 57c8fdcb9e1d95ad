//! What holds of every writable formula. The functions do nothing: each contract states a law.

ghost use Rattle.hs_round_trip.specs.Laws.{FormulasAreWritten, FormulasComeBack, PureFormulasAreWritten, PureFormulasComeBack};

/// The text of a writable formula with a disjunct, in numbered form, is read as that formula.
pub fn formulas_come_back()
    ensures { FormulasComeBack }
{}

/// The text of a writable formula has tokens, and the reader takes them for a tree that writes the formula.
pub fn formulas_are_written()
    ensures { FormulasAreWritten }
{}

/// The same of a pure formula by itself.
pub fn pure_formulas_are_written()
    ensures { PureFormulasAreWritten }
{}

/// The text of a writable pure formula, in numbered form, is read as that formula.
pub fn pure_formulas_come_back()
    ensures { PureFormulasComeBack }
{}
