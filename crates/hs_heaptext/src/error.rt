ghost use Rattle.std.specs.Prelude.{◌≡◌};
ghost use Rattle.hs_heaptext.specs.declared.error.HeapTextError.TheVariants.{Memory};

use hs_text::NoMemory;

/// Why a text was not read.
#[derive(Clone, Copy, Debug, PartialEq, Eq)]
pub enum HeapTextError {
    /// The number, from 1, of the first line that is not of its form.
    Line(u32),
    /// There was no memory.
    Memory,
}

impl From<NoMemory> for HeapTextError {
    ghost from_gives = { λ _ e. e ≡ Memory };

    fn from(_: NoMemory) -> HeapTextError {
        HeapTextError::Memory
    }
}
