//! Laws for the layers above. Each is the contract of a function without a body.

ghost use Rattle.hs_formula_fits.specs.Laws.{ConjunctionsFit, DisjunctsFit, FormulasFit, NumbersFit};

/// The number that an expression is: in order and light, of variables that are free then.
pub fn numbers_fit()
    ensures { NumbersFit }
{}

/// The conjunction of items: well formed, of variables that are free then, and what it binds is new.
pub fn conjunctions_fit()
    ensures { ConjunctionsFit }
{}

/// A disjunct over these declarations: well formed and short, and what it binds is new.
pub fn disjuncts_fit()
    ensures { DisjunctsFit }
{}

/// A formula over these declarations: as many disjuncts as are written, at most 16, each as above.
pub fn formulas_fit()
    ensures { FormulasFit }
{}
