use hs_cooper_forms::Refusal;
use hs_pure::NoMemory;
use std::alloc::{AllocError, AllocFailed};

/// Why an examination ended early.
#[derive(Clone, Copy, Debug, PartialEq, Eq)]
pub(crate) enum Halt {
    /// There was no memory.
    Memory,
    /// A number passed 128 bits, or the steps were spent.
    Spent,
}

impl From<AllocError> for Halt {
    fn from(_: AllocError) -> Halt {
        Halt::Memory
    }
}

impl<T: Drop> From<AllocFailed<T>> for Halt {
    fn from(_: AllocFailed<T>) -> Halt {
        Halt::Memory
    }
}

impl From<NoMemory> for Halt {
    fn from(_: NoMemory) -> Halt {
        Halt::Memory
    }
}

impl From<Refusal> for Halt {
    fn from(refusal: Refusal) -> Halt {
        match refusal {
            Refusal::Wide => Halt::Spent,
            Refusal::Memory => Halt::Memory,
        }
    }
}

// The steps less one and less one for each sixteen rows that are looked at.
pub(crate) fn charge(steps: &mut u64, rows: usize) -> Result<(), Halt> {
    let cost = 1 + rows as u64 / 16;
    match steps.checked_sub(cost) {
        Some(left) => {
            *steps = left;
            Ok(())
        }
        None => Err(Halt::Spent),
    }
}
