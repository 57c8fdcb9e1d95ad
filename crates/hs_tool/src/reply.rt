//! What comes of a job.

ghost use Rattle.std.specs.Prelude.{◌≡◌, [], ◌∷◌, IfOk};
ghost use Rattle.hs_tool.specs.Reply.{lines_of};

use hs_print::{Line, Refusal};
use hs_text::Text;
use sqlite_items::Items;
use std::alloc::{AllocError, Global};

/// What comes of a job.
#[derive(Debug, Drop)]
pub enum Reply {
    /// The file of this name could not be had.
    FileFault(Text),
    /// This is the first fault of the input.
    Refused(Refusal),
    /// The job is done, and has these lines.
    Answered(Items<Line>),
}

/// A report of one line.
pub fn alone(alloc: Global, line: Line) -> Result<Items<Line>, AllocError>
    ensures { IfOk result (λ report. report ≡ line ∷ []) }
{
    Ok(Items::from_vec(vec![in alloc; line]?))
}

/// The report that says a reply.
pub fn lines(alloc: Global, reply: Reply) -> Result<Items<Line>, AllocError>
    ensures { IfOk result (λ report. report ≡ lines_of reply) }
{
    match reply {
        Reply::FileFault(name) => alone(alloc, Line::FileFault(name)),
        Reply::Refused(cause) => alone(alloc, Line::Refused(cause)),
        Reply::Answered(lines) => Ok(lines),
    }
}
