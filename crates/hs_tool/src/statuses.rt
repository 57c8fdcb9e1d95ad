//! The statuses of reports.

ghost use Rattle.std.specs.Prelude.{◌≡◌};
ghost use Rattle.hs_tool.specs.Status as spec;

use hs_print::Line;

// Whether a line is a good verdict, or none.
fn is_good(line: &Line) -> bool
    ensures { result ≡ spec.is_good line.now }
{
    match line {
        Line::Shown(_)
        | Line::Valid(..)
        | Line::Accepted(..)
        | Line::ProofAccepted(..)
        | Line::Returned(..) => true,
        Line::Fails(..)
        | Line::InvStopped(..)
        | Line::Unknown(..)
        | Line::Rejected(..)
        | Line::PairInvariant(..)
        | Line::ProofRefused(..)
        | Line::ProofMissing(_)
        | Line::ProofStopped(..)
        | Line::Running(_)
        | Line::Fault(..)
        | Line::RunWide(..) => false,
        Line::DerivationText(_, unproved) => !*unproved,
        Line::SleekSummary(..)
        | Line::HipSummary(..)
        | Line::CoreText(_)
        | Line::SourceText(_)
        | Line::RefusedWords
        | Line::FileFault(_)
        | Line::Refused(_) => true,
    }
}

fn all_good(report: &[Line]) -> bool
    ensures { result ≡ spec.all_good report.now }
{
    for line in report {
        if !is_good(line) {
            return false;
        }
    }
    true
}

// The status of a line that stands alone.
fn status_alone(line: &Line) -> u8
    ensures { result ≡ spec.status_alone line.now }
{
    match line {
        Line::RefusedWords => 3,
        Line::FileFault(_) => 4,
        Line::Refused(_) => 2,
        Line::HipSummary(shown, preds, accepted, pairs) if shown != preds || accepted != pairs => 1,
        _ if is_good(line) => 0,
        _ => 1,
    }
}

/// The status of a report that was written whole: 3 where the words name no job, 4 where a file could not be
/// had, 2 where the input is refused, else 0 where every verdict is good, and 1. A summary of methods that stands
/// alone is good where all that it counts is shown and accepted.
pub fn status(report: &[Line]) -> u8
    ensures { result ≡ spec.status_of report.now }
{
    match report {
        [line] => status_alone(line),
        _ if all_good(report) => 0,
        _ => 1,
    }
}
