//! The files of a job.

ghost use Rattle.std.specs.Prelude.{◌≡◌, ◌≤◌, IfOk};
ghost use Rattle.hs_io.specs.Faults.{Rose};
ghost use Rattle.hs_tool.specs.Reply.{IsFetched};

use crate::reply::Reply;
use hs_io::{FetchError, Files};
use hs_print::Refusal;
use hs_pure::NoMemory;
use hs_text::Text;
use std::alloc::Global;

/// What comes of the fetch of a file.
#[derive(Drop)]
pub enum Fetched {
    /// Its bytes.
    Bytes(Vec<u8>),
    /// The reply of a job that needs the file, which could not be had, or is too large.
    Missing(Reply),
}

/// Fetches the file of this name, which may have at most so many bytes.
pub fn fetch<F: Files>(
    alloc: Global,
    name: Text,
    limit: u64,
    files: &mut F,
) -> Result<Fetched, NoMemory>
    ensures fetched { IfOk result (IsFetched (F.texts files.old) (Rose (F.faults files.old) (F.faults files.new)) limit name) }
    ensures later { F.faults files.old ≤ F.faults files.new }
    ensures same { F.texts files.new ≡ F.texts files.old }
{
    match files.fetch(alloc, name.as_str(), limit) {
        Ok(bytes) => Ok(Fetched::Bytes(bytes)),
        Err(FetchError::Failed) => Ok(Fetched::Missing(Reply::FileFault(name))),
        Err(FetchError::TooLarge(_)) => Ok(Fetched::Missing(Reply::Refused(Refusal::FileTooLarge))),
        Err(FetchError::Memory) => Err(NoMemory),
    }
}
