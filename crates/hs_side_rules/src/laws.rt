//! What the layers above use of these rules. Each law is the contract of a function that does nothing.

ghost use Rattle.hs_side_rules.specs.Opening.{FittingCasesCanBeOpened};
ghost use Rattle.hs_side_rules.specs.Solving.{EquationsAreTold};

/// What the disjunct of a well-formed side binds can be opened.
pub fn fitting_cases_can_be_opened()
    ensures { FittingCasesCanBeOpened }
{}

/// A conjunct passes the test of equations exactly where it gives the one open variable a value.
pub fn equations_are_told()
    ensures { EquationsAreTold }
{}
