//! Answers of files and sinks, and their texts.

use hs_io::{FetchError, PutError};
use std::alloc::{AllocError, AllocFailed};
use std::str;

/// A row is not of the form, or memory ran out.
#[derive(Clone, Copy, Debug)]
pub struct NoRow;

impl From<AllocError> for NoRow {
    fn from(_: AllocError) -> NoRow {
        NoRow
    }
}

impl<T: Drop> From<AllocFailed<T>> for NoRow {
    fn from(_: AllocFailed<T>) -> NoRow {
        NoRow
    }
}

pub fn push_bytes(out: &mut String, bytes: &[u8]) -> Result<(), NoRow> {
    let Ok(text) = str::from_utf8(bytes) else {
        return Err(NoRow);
    };
    write!(out, "`{text}`")?;
    Ok(())
}

pub fn push_fetched(out: &mut String, fetched: &Result<Vec<u8>, FetchError>) -> Result<(), NoRow> {
    match fetched {
        Ok(bytes) => push_bytes(out, bytes),
        Err(error) => push_fetch_error(out, *error),
    }
}

fn push_fetch_error(out: &mut String, error: FetchError) -> Result<(), NoRow> {
    match error {
        FetchError::Failed => write!(out, "failed")?,
        FetchError::TooLarge(bytes) => write!(out, "too large: {bytes}")?,
        FetchError::Memory => return Err(NoRow),
    }
    Ok(())
}

pub fn push_put(out: &mut String, put: Result<usize, PutError>) -> Result<(), NoRow> {
    match put {
        Ok(count) => write!(out, "took {count}")?,
        Err(PutError::Failed) => write!(out, "failed")?,
        Err(PutError::Memory) => return Err(NoRow),
    }
    Ok(())
}
