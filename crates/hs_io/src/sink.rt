//! Sinks that take bytes, and the three kinds of them.

ghost use Rattle.std.specs.Prelude.{◌≡◌, ◌↔◌, ◌≤◌, ◌<◌, List, [], ℕ, length, min, Option, Some, None, Ok, Err, IfOk, IfErr};
ghost use Rattle.std.specs.Io.KnownBytes.{WriteAppends};
ghost use Rattle.hs_io.specs.declared.sink.PutError.TheVariants.{Failed, Memory};
ghost use Rattle.hs_io.specs.Faults.{next_call};
ghost use Rattle.hs_io.specs.Sink.{Takes, HasPutCause};

use std::alloc::{AllocError, Global};
use std::io;
use std::io::{Printer, Write};

/// Why no byte was taken.
#[derive(Clone, Copy, Debug, PartialEq, Eq)]
pub enum PutError {
    /// The bytes could not be written.
    Failed,
    /// Memory ran out, which may happen in any call.
    Memory,
}

impl From<AllocError> for PutError {
    ghost from_gives = { λ _ e. e ≡ Memory };

    fn from(_: AllocError) -> Self {
        PutError::Memory
    }
}

/// Takes bytes, piece by piece.
pub trait Sink {
    /// All that was taken, where it is known.
    ghost written: { Self → Option (List ℕ) };

    /// How often a put has failed.
    ghost faults: { Self → ℕ };

    /// Takes the first bytes of a piece, and answers how many. After an `Err` none was taken.
    fn put(&mut self, bytes: &[u8]) -> Result<usize, PutError>
        ensures count { IfOk result (Takes bytes.now) }
        ensures empty { bytes.now ≡ [] → result ≡ Ok 0 }
        ensures bytes { WriteAppends (written self.old) (written self.new) result bytes.now }
        ensures cause { IfErr result (HasPutCause (faults self.old) (faults self.new)) }
        ensures later { faults self.old ≤ faults self.new };
}

/// A sink in memory that takes at most `most` bytes a put. A put fails where its number, from 1, is
/// listed. One of an empty piece never fails and has no number.
#[derive(Drop)]
pub struct MemSink {
    bytes: Vec<u8>,
    fails: Vec<u64>,
    most: usize,
    calls: u64,
    faults: u64,
    ghost takes_some: { 0 < most },
}

impl MemSink {
    ghost use Rattle.hs_io.specs.MemSink as spec;

    /// An empty sink, with the numbers of the puts that fail.
    pub fn new(alloc: Global, fails: Vec<u64>, most: usize) -> Self
        requires { 0 < most }
        ensures written { ⟦<MemSink as Sink>⟧.written result ≡ Some [] }
        ensures fails { spec.failing result ≡ fails.items }
        ensures first { spec.puts result ≡ 0 }
        ensures none_failed { spec.faults result ≡ 0 }
        ensures most { spec.most result ≡ most }
    {
        MemSink {
            bytes: Vec::new(alloc),
            fails,
            most,
            calls: 0,
            faults: 0,
        }
    }

    /// All that was taken.
    pub fn written(&self) -> &[u8]
        ensures { ⟦<MemSink as Sink>⟧.written self.now ≡ Some result.now }
    {
        &self.bytes
    }
}

impl Sink for MemSink {
    ghost use Rattle.hs_io.specs.MemSink as spec;

    ghost written = { λ m. Some (spec.written m) };

    ghost faults = { λ m. spec.faults m };

    fn put(&mut self, bytes: &[u8]) -> Result<usize, PutError>
        ensures count { IfOk result (Takes bytes.now) }
        ensures empty { bytes.now ≡ [] → result ≡ Ok 0 }
        ensures bytes { WriteAppends (Some (spec.written self.old)) (Some (spec.written self.new)) result bytes.now }
        ensures cause { IfErr result (HasPutCause (spec.faults self.old) (spec.faults self.new)) }
        ensures later { spec.faults self.old ≤ spec.faults self.new }

        // Beyond what all sinks promise: it fails exactly where it is told to, and takes no more than it is told to.
        ensures fault { 0 < length bytes.now → (result ≡ Err Failed) ↔ spec.FailsPut self.old }
        ensures most { IfOk result (λ count. count ≡ min (length bytes.now) (spec.most self.old)) }
        ensures counted { 0 < length bytes.now → spec.puts self.new ≡ next_call (spec.puts self.old) }
        ensures fails { spec.failing self.new ≡ spec.failing self.old }
        ensures kept { spec.most self.new ≡ spec.most self.old }
    {
        if bytes.is_empty() {
            return Ok(0);
        }
        self.calls = self.calls.saturating_add(1);
        if self.fails.contains(&self.calls) {
            self.faults = self.faults.saturating_add(1);
            return Err(PutError::Failed);
        }
        let count = bytes.len().min(self.most);
        self.bytes.extend_from_slice(&bytes[..count])?;
        Ok(count)
    }
}

/// A sink in memory that never fails.
#[derive(Drop)]
pub struct SureSink {
    bytes: Vec<u8>,
}

impl SureSink {
    /// An empty sink.
    pub fn new(alloc: Global) -> Self
        ensures { ⟦<SureSink as Sink>⟧.written result ≡ Some [] }
    {
        SureSink {
            bytes: Vec::new(alloc),
        }
    }

    /// All that was taken.
    pub fn written(&self) -> &[u8]
        ensures { ⟦<SureSink as Sink>⟧.written self.now ≡ Some result.now }
    {
        &self.bytes
    }
}

impl Sink for SureSink {
    ghost written = { λ s. Some s.bytes.items };

    ghost faults = { λ s. 0 };

    fn put(&mut self, bytes: &[u8]) -> Result<usize, PutError> {
        self.bytes.extend_from_slice(bytes)?;
        Ok(bytes.len())
    }
}

/// Standard output, through the runtime `P`. Each put is flushed.
#[derive(Drop)]
pub struct RealSink<'a, P: Print> {
    out: Printer<'a, P>,
    faults: u64,
}

impl<'a, P: Print> RealSink<'a, P> {
    /// A sink to which nothing was put yet.
    pub fn new(rt: &'a P) -> Self
        ensures { ⟦<RealSink<'a, P> as Sink>⟧.faults result ≡ 0 }
    {
        RealSink {
            out: io::writer(rt),
            faults: 0,
        }
    }
}

impl<P: Print> Sink for RealSink<'_, P> {
    ghost written = { λ _. None };

    ghost faults = { λ r. r.faults };

    fn put(&mut self, bytes: &[u8]) -> Result<usize, PutError> {
        if bytes.is_empty() {
            return Ok(0);
        }
        if let Ok(count) = self.out.write(bytes)
            && count > 0
            && self.out.flush().is_ok()
        {
            return Ok(count);
        }
        self.faults = self.faults.saturating_add(1);
        Err(PutError::Failed)
    }
}
