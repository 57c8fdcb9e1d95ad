//! The replies of `core` and `run`.

ghost use Rattle.std.specs.Prelude.{◌≤◌, length, IfOk};
ghost use Rattle.hs_tool.specs.Programs.{IsCoreReply, IsReplyOf, IsRunReply};
ghost use Rattle.hs_tool.specs.Reply.{IsSourceReply};
ghost use Rattle.hs_tool.specs.Run.{source_limit};

use crate::reply::Reply;
use crate::sources::founded_source;
use hs_core_lines::{CoreError, core_lines, run_lines};
use hs_lower_sound::{lowered_code_is_short, lowered_programs_are_sound, sources_are_lowerable};
use hs_print::Line;
use hs_pure::NoMemory;
use hs_source::SourceError;
use hs_text::Text;
use sqlite_items::Items;
use std::alloc::Global;

// Lines, or a refusal, as a reply.
fn reply_of(lines: Result<Items<Line>, CoreError>) -> Result<Reply, NoMemory>
    ensures { IfOk result (IsReplyOf lines) }
{
    match lines {
        Ok(lines) => Ok(Reply::Answered(lines)),
        Err(CoreError::Refused(cause)) => Ok(Reply::Refused(cause)),
        Err(CoreError::Memory) => Err(NoMemory),
    }
}

/// The reply to a source of at most 2^20 bytes whose core program is printed.
pub fn core_reply(alloc: Global, bytes: &[u8]) -> Result<Reply, NoMemory>
    requires few { length bytes.now ≤ source_limit }
    ensures { IfOk result (IsSourceReply IsCoreReply bytes.now) }
{
    match founded_source(alloc, bytes) {
        Ok(resolved) => reply_of(core_lines(alloc, &resolved)),
        Err(SourceError::Refused(cause)) => Ok(Reply::Refused(cause)),
        Err(SourceError::Memory) => Err(NoMemory),
    }
}

/// The reply to a source whose method is run on a heap text for at most so many steps. Both have at most 2^20 bytes.
pub fn run_reply(
    alloc: Global,
    bytes: &[u8],
    method: &Text,
    text: &[u8],
    steps: u64,
) -> Result<Reply, NoMemory>
    requires few { length bytes.now ≤ source_limit }
    requires short { length text.now ≤ source_limit }
    ensures { IfOk result (IsSourceReply (IsRunReply method.now text.now steps) bytes.now) }
{
    sources_are_lowerable();
    lowered_programs_are_sound();
    lowered_code_is_short();
    match founded_source(alloc, bytes) {
        Ok(resolved) => reply_of(run_lines(alloc, &resolved, method, text, steps)),
        Err(SourceError::Refused(cause)) => Ok(Reply::Refused(cause)),
        Err(SourceError::Memory) => Err(NoMemory),
    }
}
