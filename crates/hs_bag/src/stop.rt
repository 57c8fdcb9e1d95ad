ghost use Rattle.std.specs.Prelude.{◌≡◌};
ghost use Rattle.hs_bag.specs.declared.stop.Stop.TheVariants.{Memory};

use hs_pure::NoMemory;

/// Why a plain reduction was not made.
#[derive(Clone, Copy, Debug, PartialEq, Eq)]
pub enum Stop {
    /// It has more comparisons than were allowed.
    Atoms,
    /// A number of it passes 128 bits.
    Wide,
    /// There was no memory.
    Memory,
}

impl From<NoMemory> for Stop {
    ghost from_gives = { λ _ e. e ≡ Memory };

    fn from(_: NoMemory) -> Stop {
        Stop::Memory
    }
}
