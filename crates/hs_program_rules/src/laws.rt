//! Laws of right steps of programs. Each is the contract of a function that does nothing.

ghost use Rattle.hs_program_rules.specs.Laws.{ConcludedStatesAreSafe, EntriesFit, RightStepsKeepSafe};

/// The start of each pair of a sound program is well formed.
pub fn entries_fit()
    ensures { EntriesFit }
{}

/// A right step keeps states safe.
pub fn right_steps_keep_safe()
    ensures { RightStepsKeepSafe }
{}

/// Where the start of every pair is concluded, each concluded state is safe for every number of steps.
pub fn concluded_states_are_safe()
    ensures { ConcludedStatesAreSafe }
{}
