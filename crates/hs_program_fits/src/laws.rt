//! Laws of well-formed states. Each is the contract of a function that does nothing.

ghost use Rattle.hs_program_fits.specs.Laws.{AskedGoalsFit, EntriesArePrepared, PremisesArePrepared, PremisesFit, PreparedStatesAreRead, RightStepsStayFormed, SimpleStatesHaveRules};

/// The start of each pair of a sound program is prepared.
pub fn entries_are_prepared()
    ensures { EntriesArePrepared }
{}

/// The further premises of a prepared state are prepared.
pub fn premises_are_prepared()
    ensures { PremisesArePrepared }
{}

/// In a set program the slots that the next instruction of a prepared state reads hold variables.
pub fn prepared_states_are_read()
    ensures { PreparedStatesAreRead }
{}

/// In a set program a prepared state that is simple has the rules of its instruction.
pub fn simple_states_have_rules()
    ensures { SimpleStatesHaveRules }
{}

/// The goal that a rule asks of a well-formed state is well formed.
pub fn asked_goals_fit()
    ensures { AskedGoalsFit }
{}

/// The further premises of a well-formed state are well formed.
pub fn premises_fit()
    ensures { PremisesFit }
{}

/// A right step's residue is formed where those of its premises are formed and keep numbers apart.
pub fn right_steps_stay_formed()
    ensures { RightStepsStayFormed }
{}
