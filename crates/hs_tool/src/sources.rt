//! Sources in normal form whose definitions are founded.

ghost use Rattle.std.specs.Prelude.{◌≤◌, length, IfErr, IfOk};
ghost use Rattle.hs_tool.specs.Run.{source_limit};
ghost use Rattle.hs_tool.specs.Sources.{HasFoundingCause, IsFoundedSource};

use hs_founding::founding_fault;
use hs_norm::Resolved;
use hs_norm_sound::definitions_are_sound;
use hs_pure::NoMemory;
use hs_source::{SourceError, resolve};
use std::alloc::Global;

/// The normal form of a source of at most 2^20 bytes, or its first fault: of its bytes, or of definitions that are
/// not founded.
pub fn founded_source(alloc: Global, bytes: &[u8]) -> Result<Resolved, SourceError>
    requires few { length bytes.now ≤ source_limit }
    ensures found { IfOk result (IsFoundedSource bytes.now) }
    ensures cause { IfErr result (HasFoundingCause bytes.now) }
{
    definitions_are_sound();
    let (_, resolved) = match resolve(alloc, bytes) {
        Ok(read) => read,
        Err(error) => return Err(error),
    };
    match founding_fault(alloc, &resolved) {
        Ok(None) => Ok(resolved),
        Ok(Some(cause)) => Err(SourceError::Refused(cause)),
        Err(NoMemory) => Err(SourceError::Memory),
    }
}
