//! Counts that stop at a bound.

ghost use Rattle.std.specs.Prelude.{◌≡◌, min};

use std::cmp::min;

/// The number, or `most` where it passes that.
pub fn capped(n: u64, most: u64) -> u64
    ensures { result ≡ min n most }
{
    min(n, most)
}
