//! The reply of `hip`.

ghost use Rattle.std.specs.Prelude.{◌≡◌, ◌≤◌, ◌^◌, ◌++◌, ◌∷◌, [], length, IfOk};
ghost use Rattle.hs_cli.specs.Job.{AreInRange};
ghost use Rattle.hs_tool.specs.Reply.{IsSourceReply};
ghost use Rattle.hs_tool.specs.Run.{source_limit};
ghost use Rattle.hs_tool.specs.Hip as spec;
ghost use Rattle.hs_tool.specs.Hip.{IsHipReport, IsHipReply};
ghost use Rattle.hs_tool.specs.Sources.{IsNormalForm, IsItsProgram};

use crate::reply::Reply;
use crate::served::{Served, served_source};
use crate::sleek::limits_of;
use hs_cli::Options;
use hs_core::Program;
use hs_hip_lines::pair_lines;
use hs_norm::Resolved;
use hs_pred_lines::predicate_lines;
use hs_print::Line;
use hs_pure::NoMemory;
use hs_source::SourceError;
use sqlite_items::Items;
use std::alloc::Global;

// The line that ends a report.
fn summary(preds: &[Line], pairs: &[Line]) -> Result<Line, NoMemory>
    requires preds { length preds.now ≤ 2 ^ 20 }
    ensures { IfOk result (λ l. l ≡ spec.summary_of preds.now pairs.now) }
{
    let Ok(all) = u32::try_from(pairs.len()) else {
        return Err(NoMemory);
    };
    let shown = preds
        .iter()
        .filter(|line| matches!(line, Line::Shown(_)))
        .count();
    let accepted = pairs
        .iter()
        .filter(|line| matches!(line, Line::Accepted(..)))
        .count();
    Ok(Line::HipSummary(shown as u32, preds.len() as u32, accepted as u32, all))
}

// The lines of both kinds, and the summary.
fn report(mut preds: Vec<Line>, mut pairs: Vec<Line>) -> Result<Items<Line>, NoMemory>
    requires preds { length preds.items ≤ 2 ^ 20 }
    ensures { IfOk result (λ lines. lines ≡ preds.items ++ pairs.items ++ spec.summary_of preds.items pairs.items ∷ []) }
{
    let last = summary(&preds, &pairs)?;
    preds.append(&mut pairs)?;
    preds.push(last)?;
    Ok(Items::from_vec(preds))
}

// The lines on a source that is served.
fn hip(
    alloc: Global,
    resolved: &Resolved,
    program: &Program,
    options: Options,
) -> Result<Items<Line>, NoMemory>
    requires normal { IsNormalForm resolved.now }
    requires program { IsItsProgram resolved.now program.now }
    requires range { AreInRange options }
    ensures { IfOk result (IsHipReport options resolved.now program.now) }
{
    let (preds, unshown) = predicate_lines(alloc, resolved, options.atoms)?;
    let pairs = pair_lines(
        alloc,
        &resolved.defs,
        program,
        resolved.methods.as_slice(),
        &unshown,
        &limits_of(options),
    )?;
    report(preds, pairs)
}

/// The reply to a source of at most 2^20 bytes whose methods are verified.
pub fn hip_reply(alloc: Global, bytes: &[u8], options: Options) -> Result<Reply, NoMemory>
    requires few { length bytes.now ≤ source_limit }
    requires range { AreInRange options }
    ensures { IfOk result (IsSourceReply (IsHipReply options) bytes.now) }
{
    match served_source(alloc, bytes) {
        Ok(Served { resolved, program }) => {
            Ok(Reply::Answered(hip(alloc, &resolved, &program, options)?))
        }
        Err(SourceError::Refused(cause)) => Ok(Reply::Refused(cause)),
        Err(SourceError::Memory) => Err(NoMemory),
    }
}
