//! Why a source has no core program.

ghost use Rattle.std.specs.Prelude.{◌≡◌};
ghost use Rattle.hs_lower_faults.specs.declared.error.LowerError.TheVariants.{Memory};

use hs_pure::NoMemory;

/// Why a source has no core program. Each place is the offset of the fault's first token.
#[derive(Clone, Copy, Debug, PartialEq, Eq)]
pub enum LowerError {
    /// Types do not fit.
    BadType(u32),
    /// A variable is read that is not set.
    Unset(u32),
    /// The end of a method with result can be reached: its closing brace.
    NoReturn(u32),
    /// A method without other faults has over 4,096 instructions: its closing brace.
    TooLong(u32),
    /// Two reference arguments of a call are one variable. No source has this yet.
    RefTwice(u32),
    /// A return stands in a loop. No source has this yet.
    ReturnInLoop(u32),
    /// There was no memory.
    Memory,
}

impl From<NoMemory> for LowerError {
    ghost from_gives = { λ _ e. e ≡ Memory };

    fn from(_: NoMemory) -> LowerError {
        LowerError::Memory
    }
}
