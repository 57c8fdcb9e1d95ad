use hs_pure::{NoMemory, Wide};
use std::alloc::{AllocError, AllocFailed};

/// A row is not of the form, or memory ran out.
#[derive(Clone, Copy, Debug)]
pub struct NoRow;

impl From<AllocError> for NoRow {
    fn from(_: AllocError) -> NoRow {
        NoRow
    }
}

impl<T: Drop> From<AllocFailed<T>> for NoRow {
    fn from(_: AllocFailed<T>) -> NoRow {
        NoRow
    }
}

impl From<NoMemory> for NoRow {
    fn from(_: NoMemory) -> NoRow {
        NoRow
    }
}

impl From<Wide> for NoRow {
    fn from(_: Wide) -> NoRow {
        NoRow
    }
}
