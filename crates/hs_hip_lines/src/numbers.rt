//! Lengths as numbers of 32 bits.

ghost use Rattle.std.specs.Prelude.{◌≡◌, IfOk};

use hs_pure::NoMemory;

/// A length as a number. `NoMemory` comes where it is 2^32 or more: so many values are held nowhere.
pub fn number_of(length: usize) -> Result<u32, NoMemory>
    ensures { IfOk result (λ n. n ≡ length) }
{
    u32::try_from(length).map_err(|_| NoMemory)
}
