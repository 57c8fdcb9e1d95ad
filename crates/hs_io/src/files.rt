//! Files that are read whole, and the three kinds of them.

ghost use Rattle.std.specs.Prelude.{◌≡◌, ◌≢◌, ◌↔◌, ◌≤◌, ◌<◌, List, [], ℕ, length, Option, Some, None, Err, IfOk, IfErr, IfSome, OnErr, OnOk};
ghost use Rattle.std.specs.Option.{option_map};
ghost use Rattle.std.specs.Io.KnownBytes.{Consumes};
ghost use Rattle.hs_io.specs.declared.files.FetchError.TheVariants.{Failed, Memory};
ghost use Rattle.hs_io.specs.Faults.{next_call, Rose};
ghost use Rattle.hs_io.specs.Files.{held, bytes_of, texts_of, HasFetchCause};

use std::alloc::{AllocError, Global};
use std::io::Read;
use std::{fs, rt};

/// Why a file's bytes are not answered.
#[derive(Clone, Copy, Debug, PartialEq, Eq)]
pub enum FetchError {
    /// The file is missing, or could not be read.
    Failed,
    /// The file has at least this many bytes, more than were allowed.
    TooLarge(u64),
    /// Memory ran out, which may happen in any call.
    Memory,
}

impl From<AllocError> for FetchError {
    ghost from_gives = { λ _ e. e ≡ Memory };

    fn from(_: AllocError) -> Self {
        FetchError::Memory
    }
}

/// Files that are read whole, by name.
pub trait Files {
    /// The names and the bytes of the files, where they are known.
    ghost texts: { Self → Option (List (List ℕ × List ℕ)) };

    /// How often a fetch has failed.
    ghost faults: { Self → ℕ };

    /// The bytes of a file that has at most `max` of them.
    fn fetch(&mut self, alloc: Global, name: &str, max: u64) -> Result<Vec<u8>, FetchError>
        ensures size { IfOk result (λ bytes. length bytes.items ≤ max) }
        ensures bytes { IfOk result (λ bytes. IfSome (texts self.old) (λ all. bytes.items ≡ bytes_of all name.now)) }
        ensures cause { IfErr result (HasFetchCause (texts self.old) name.now max (faults self.old) (faults self.new)) }
        ensures later { faults self.old ≤ faults self.new }
        ensures same { texts self.new ≡ texts self.old };
}

/// The first file with this name.
fn find<'a>(files: &'a [(String, Vec<u8>)], name: &str) -> Option<&'a Vec<u8>>
    ensures { option_map (λ bytes. bytes.now.items) result ≡ held (texts_of files.now) name.now }
{
    for file in files {
        if file.0.as_str() == name {
            return Some(&file.1);
        }
    }
    None
}

/// A copy of bytes that are at most `max`.
fn copy_up_to(alloc: Global, bytes: &[u8], max: u64) -> Result<Vec<u8>, FetchError>
    ensures size { IfOk result (λ copy. length copy.items ≤ max) }
    ensures bytes { IfOk result (λ copy. copy.items ≡ bytes.now) }
    ensures cause { (texts : List (List ℕ × List ℕ)) (name : List ℕ) (faults : ℕ) → bytes_of texts name ≡ bytes.now →
        IfErr result (HasFetchCause (Some texts) name max faults faults) }
    ensures no_fault { result ≢ Err Failed }
{
    let len = bytes.len() as u64;
    if len > max {
        return Err(FetchError::TooLarge(len));
    }
    Ok(bytes.to_vec(alloc)?)
}

/// Files in memory. A fetch fails where its number, from 1, is listed, or where no file has the name.
#[derive(Drop)]
pub struct MemFiles {
    files: Vec<(String, Vec<u8>)>,
    fails: Vec<u64>,
    calls: u64,
    faults: u64,
}

impl MemFiles {
    ghost use Rattle.hs_io.specs.MemFiles as spec;

    /// Files by name, and the numbers of the fetches that fail. Where two pairs have one name, the
    /// first counts.
    pub fn new(files: Vec<(String, Vec<u8>)>, fails: Vec<u64>) -> Self
        ensures texts { ⟦<MemFiles as Files>⟧.texts result ≡ Some (texts_of files.items) }
        ensures fails { spec.failing result ≡ fails.items }
        ensures first { spec.fetches result ≡ 0 }
        ensures none_failed { spec.faults result ≡ 0 }
    {
        MemFiles {
            files,
            fails,
            calls: 0,
            faults: 0,
        }
    }
}

impl Files for MemFiles {
    ghost use Rattle.hs_io.specs.MemFiles as spec;

    ghost texts = { λ m. Some (spec.texts m) };

    ghost faults = { λ m. spec.faults m };

    fn fetch(&mut self, alloc: Global, name: &str, max: u64) -> Result<Vec<u8>, FetchError>
        ensures size { IfOk result (λ bytes. length bytes.items ≤ max) }
        ensures bytes { IfOk result (λ bytes. bytes.items ≡ bytes_of (spec.texts self.old) name.now) }
        ensures cause { IfErr result (HasFetchCause (Some (spec.texts self.old)) name.now max (spec.faults self.old) (spec.faults self.new)) }
        ensures later { spec.faults self.old ≤ spec.faults self.new }
        ensures same { spec.texts self.new ≡ spec.texts self.old }

        // Beyond what all files promise: it fails exactly where it is told to.
        ensures fault { (result ≡ Err Failed) ↔ spec.FailsFetch self.old name.now }
        ensures counted { spec.fetches self.new ≡ next_call (spec.fetches self.old) }
        ensures fails { spec.failing self.new ≡ spec.failing self.old }
    {
        self.calls = self.calls.saturating_add(1);
        let found = find(&self.files, name);
        match found {
            Some(bytes) if !self.fails.contains(&self.calls) => copy_up_to(alloc, bytes, max),
            _ => {
                self.faults = self.faults.saturating_add(1);
                Err(FetchError::Failed)
            }
        }
    }
}

/// Files in memory that never fail. A name that is absent is an empty file.
#[derive(Drop)]
pub struct SureFiles {
    files: Vec<(String, Vec<u8>)>,
}

impl SureFiles {
    /// Files by name. Where two pairs have one name, the first counts.
    pub fn new(files: Vec<(String, Vec<u8>)>) -> Self
        ensures { ⟦<SureFiles as Files>⟧.texts result ≡ Some (texts_of files.items) }
    {
        SureFiles { files }
    }
}

impl Files for SureFiles {
    ghost texts = { λ s. Some (texts_of s.files.items) };

    ghost faults = { λ s. 0 };

    fn fetch(&mut self, alloc: Global, name: &str, max: u64) -> Result<Vec<u8>, FetchError> {
        match find(&self.files, name) {
            Some(bytes) => copy_up_to(alloc, bytes, max),
            None => Ok(Vec::new(alloc)),
        }
    }
}

/// The files of the system, through the runtime `R`.
#[derive(Drop)]
pub struct RealFiles<'a, R: rt::Files> {
    rt: &'a R,
    faults: u64,
}

impl<'a, R: rt::Files> RealFiles<'a, R> {
    /// Files of which none was fetched yet.
    pub fn new(rt: &'a R) -> Self
        ensures { ⟦<RealFiles<'a, R> as Files>⟧.faults result ≡ 0 }
    {
        RealFiles { rt, faults: 0 }
    }
}

impl<R: rt::Files> Files for RealFiles<'_, R> {
    ghost texts = { λ _. None };

    ghost faults = { λ r. r.faults };

    fn fetch(&mut self, alloc: Global, name: &str, max: u64) -> Result<Vec<u8>, FetchError> {
        let read = match fs::open(self.rt, name) {
            Ok(mut file) => read_up_to(alloc, &mut file, max),
            Err(_) => Err(FetchError::Failed),
        };
        if matches!(read, Err(FetchError::Failed)) {
            self.faults = self.faults.saturating_add(1);
        }
        read
    }
}

/// How many bytes are read at once, at most.
const PIECE: usize = 4096;

/// All that a reader has left, if that is at most `max` bytes. It reads at most one byte more.
fn read_up_to<R: Read>(alloc: Global, reader: &mut R, max: u64) -> Result<Vec<u8>, FetchError>
    ensures size { IfOk result (λ bytes. length bytes.items ≤ max) }
    ensures bytes { IfOk result (λ bytes. IfSome (R.remaining reader.old) (λ all. bytes.items ≡ all)) }
    ensures cause { (now : ℕ) → Rose 0 now → IfErr result (HasFetchCause None [] max 0 now) }
{
    let mut bytes = Vec::new(alloc);
    let mut buf = [0u8; PIECE];
    'read: while bytes.len() as u64 <= max {
        let room = (max - bytes.len() as u64)
            .saturating_add(1)
            .min(PIECE as u64);
        let Ok(count) = reader.read(&mut buf[..room as usize]) else {
            return Err(FetchError::Failed);
        };
        if count == 0 {
            return Ok(bytes);
        }
        bytes.extend_from_slice(&buf[..count])?;
    }
    Err(FetchError::TooLarge(bytes.len() as u64))
}
