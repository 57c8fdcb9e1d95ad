//! The replies of `prove` and `check`.

ghost use Rattle.std.specs.Prelude.{◌≤◌, length, IfOk};
ghost use Rattle.hs_cli.specs.Job.{AreInRange};
ghost use Rattle.hs_tool.specs.Reply.{IsSourceReply};
ghost use Rattle.hs_tool.specs.Run.{source_limit, proof_limit};
ghost use Rattle.hs_tool.specs.Proofs.{IsProveReply, IsCheckReply, IsCheckReplyOf};

use crate::reply::Reply;
use crate::served::{Served, served_source};
use crate::sleek::limits_of;
use hs_cli::Options;
use hs_print::Line;
use hs_proof_lines::{CheckError, check_lines, proof_lines};
use hs_pure::NoMemory;
use hs_source::SourceError;
use sqlite_items::Items;
use std::alloc::Global;

/// The reply to a source of at most 2^20 bytes whose claims are proved.
pub fn prove_reply(alloc: Global, bytes: &[u8], options: Options) -> Result<Reply, NoMemory>
    requires few { length bytes.now ≤ source_limit }
    requires range { AreInRange options }
    ensures { IfOk result (IsSourceReply (IsProveReply options) bytes.now) }
{
    match served_source(alloc, bytes) {
        Ok(Served { resolved, program }) => {
            let lines = proof_lines(alloc, &resolved, &program, &limits_of(options))?;
            Ok(Reply::Answered(lines))
        }
        Err(SourceError::Refused(cause)) => Ok(Reply::Refused(cause)),
        Err(SourceError::Memory) => Err(NoMemory),
    }
}

// Lines, or a refusal, as a reply.
fn reply_of(lines: Result<Items<Line>, CheckError>) -> Result<Reply, NoMemory>
    ensures { IfOk result (IsCheckReplyOf lines) }
{
    match lines {
        Ok(lines) => Ok(Reply::Answered(lines)),
        Err(CheckError::Refused(cause)) => Ok(Reply::Refused(cause)),
        Err(CheckError::Memory) => Err(NoMemory),
    }
}

/// The reply to a source of at most 2^20 bytes against whose claims the text of a derivation, of at most 2^26 bytes, is
/// checked.
pub fn check_reply<W: Fn(u32) + Sync>(
    alloc: Global,
    bytes: &[u8],
    text: &[u8],
    options: Options,
    watch: &W,
) -> Result<Reply, NoMemory>
    requires few { length bytes.now ≤ source_limit }
    requires short { length text.now ≤ proof_limit }
    requires range { AreInRange options }
    requires watch { W.IsAlwaysCallable watch.now }
    ensures { IfOk result (IsSourceReply (IsCheckReply text.now options) bytes.now) }
{
    match served_source(alloc, bytes) {
        Ok(Served { resolved, program }) => reply_of(check_lines(
            alloc,
            &resolved,
            &program,
            text,
            options.atoms,
            options.pieces,
            watch,
        )),
        Err(SourceError::Refused(cause)) => Ok(Reply::Refused(cause)),
        Err(SourceError::Memory) => Err(NoMemory),
    }
}
