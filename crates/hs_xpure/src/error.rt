ghost use Rattle.std.specs.Prelude.{◌≡◌};
ghost use Rattle.hs_xpure.specs.declared.error.XError.TheVariants.{Memory};

use hs_pure::NoMemory;

/// Why there is no approximation.
#[derive(Clone, Copy, Debug, PartialEq, Eq)]
pub enum XError {
    /// It takes more than 2^30 new numbers.
    Numbers,
    /// There was no memory.
    Memory,
}

impl From<NoMemory> for XError {
    ghost from_gives = { λ _ e. e ≡ Memory };

    fn from(_: NoMemory) -> XError {
        XError::Memory
    }
}
