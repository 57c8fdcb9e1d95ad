//! Why no equation is put in place any more.

use hs_pure::NoMemory;
use std::alloc::{AllocError, AllocFailed};

/// Why the work stops.
#[derive(Clone, Copy, Debug, PartialEq, Eq)]
pub(crate) enum Stop {
    /// The steps are spent.
    Spent,
    /// There was no memory.
    Memory,
}

impl From<AllocError> for Stop {
    fn from(_: AllocError) -> Stop {
        Stop::Memory
    }
}

impl<T: Drop> From<AllocFailed<T>> for Stop {
    fn from(_: AllocFailed<T>) -> Stop {
        Stop::Memory
    }
}

impl From<NoMemory> for Stop {
    fn from(_: NoMemory) -> Stop {
        Stop::Memory
    }
}

// Takes `cost` of the steps.
pub(crate) fn charge(steps: &mut u64, cost: u64) -> Result<(), Stop> {
    match steps.checked_sub(cost) {
        Some(left) => {
            *steps = left;
            Ok(())
        }
        None => Err(Stop::Spent),
    }
}
