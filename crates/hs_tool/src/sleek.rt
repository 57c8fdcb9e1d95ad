//! The reply of `sleek`.

ghost use Rattle.std.specs.Prelude.{◌≡◌, ◌≤◌, ◌^◌, ◌++◌, ◌∷◌, [], length, IfOk};
ghost use Rattle.hs_cli.specs.Job.{AreInRange};
ghost use Rattle.hs_tool.specs.Reply.{IsSourceReply};
ghost use Rattle.hs_tool.specs.Run.{source_limit};
ghost use Rattle.hs_tool.specs.Sleek as spec;
ghost use Rattle.hs_tool.specs.Sleek.{IsSleekReport, IsSleekReply};
ghost use Rattle.hs_tool.specs.Sources.{IsNormalForm};

use crate::reply::Reply;
use crate::served::{Served, served_source};
use hs_cli::Options;
use hs_entail_lines::entailment_lines;
use hs_goal::Limits;
use hs_norm::Resolved;
use hs_pred_lines::predicate_lines;
use hs_print::Line;
use hs_pure::NoMemory;
use hs_source::SourceError;
use sqlite_items::Items;
use std::alloc::Global;

/// The limits of a search.
pub fn limits_of(options: Options) -> Limits
    ensures { result ≡ spec.limits_of options }
{
    Limits {
        rank: options.rank,
        goals: options.goals,
        atoms: options.atoms,
        level: options.level,
        residues: options.residues,
    }
}

// The line that ends a report.
fn summary(preds: &[Line], entailments: &[Line]) -> Line
    requires preds { length preds.now ≤ 2 ^ 20 }
    requires entailments { length entailments.now ≤ 2 ^ 20 }
    ensures { result ≡ spec.summary_of preds.now entailments.now }
{
    let shown = preds
        .iter()
        .filter(|line| matches!(line, Line::Shown(_)))
        .count();
    let valid = entailments
        .iter()
        .filter(|line| matches!(line, Line::Valid(..)))
        .count();
    Line::SleekSummary(
        shown as u32,
        preds.len() as u32,
        valid as u32,
        entailments.len() as u32,
    )
}

// The lines of both kinds, and the summary.
fn report(mut preds: Vec<Line>, mut entailments: Vec<Line>) -> Result<Items<Line>, NoMemory>
    requires preds { length preds.items ≤ 2 ^ 20 }
    requires entailments { length entailments.items ≤ 2 ^ 20 }
    ensures { IfOk result (λ lines. lines ≡ preds.items ++ entailments.items ++ spec.summary_of preds.items entailments.items ∷ []) }
{
    let last = summary(&preds, &entailments);
    preds.append(&mut entailments)?;
    preds.push(last)?;
    Ok(Items::from_vec(preds))
}

// The lines on a source that is served.
fn sleek(alloc: Global, resolved: &Resolved, options: Options) -> Result<Items<Line>, NoMemory>
    requires normal { IsNormalForm resolved.now }
    requires range { AreInRange options }
    ensures { IfOk result (IsSleekReport options resolved.now) }
{
    let (preds, unshown) = predicate_lines(alloc, resolved, options.atoms)?;
    let entailments = entailment_lines(
        alloc,
        &resolved.defs,
        resolved.entailments.as_slice(),
        &unshown,
        &limits_of(options),
    )?;
    report(preds, entailments)
}

/// The reply to a source of at most 2^20 bytes whose entailments are proved.
pub fn sleek_reply(alloc: Global, bytes: &[u8], options: Options) -> Result<Reply, NoMemory>
    requires few { length bytes.now ≤ source_limit }
    requires range { AreInRange options }
    ensures { IfOk result (IsSourceReply (IsSleekReply options) bytes.now) }
{
    match served_source(alloc, bytes) {
        Ok(Served { resolved, .. }) => Ok(Reply::Answered(sleek(alloc, &resolved, options)?)),
        Err(SourceError::Refused(cause)) => Ok(Reply::Refused(cause)),
        Err(SourceError::Memory) => Err(NoMemory),
    }
}
