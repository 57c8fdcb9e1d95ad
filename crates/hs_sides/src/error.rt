ghost use Rattle.std.specs.Prelude.{◌≡◌};
ghost use Rattle.hs_sides.specs.declared.error.RuleError.TheVariants.{Memory};

use hs_pure::NoMemory;

/// Why a rule gives no subgoals: it does not apply to the goal, or memory is wanting.
#[derive(Clone, Copy, Debug, PartialEq, Eq)]
pub enum RuleError {
    NotApplicable,
    Memory,
}

impl From<NoMemory> for RuleError {
    ghost from_gives = { λ _ e. e ≡ Memory };

    fn from(_: NoMemory) -> RuleError {
        RuleError::Memory
    }
}
