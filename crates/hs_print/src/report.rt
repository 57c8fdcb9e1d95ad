//! The text of a report.

ghost use Rattle.std.specs.Prelude.{◌≡◌, ◌++◌, IfOk, OnOk};
ghost use Rattle.std.specs.List.{flat_map};
ghost use Rattle.std.specs.String.{string_bytes};
ghost use Rattle.hs_print.specs.Line.{residues_text, valid_text, stopped_text, unknown_text, rejected_text, node_text, returned_text, refused_text, tried_text, line_text, text_of};

use crate::line::Line;
use crate::refusal::{Refusal, push_refusal};
use crate::why::{Tried, Why, push_tried, push_why};
use crate::word::Word;
use hs_pure::NoMemory;
use hs_text::Text;
use std::alloc::{AllocError, Global};

// Adds residues, a line each, with their numbers.
fn push_residues(out: &mut String, residues: &[Text]) -> Result<(), AllocError>
    ensures { OnOk result (string_bytes out.new ≡ string_bytes out.old ++ residues_text 1 residues.now) }
{
    let mut number = 1usize;
    for residue in residues {
        write!(out, "  {number}: {residue}\n")?;
        number += 1;
    }
    Ok(())
}

fn push_valid(out: &mut String, number: u32, residues: &[Text]) -> Result<(), AllocError>
    ensures { OnOk result (string_bytes out.new ≡ string_bytes out.old ++ valid_text number residues.now) }
{
    let count = residues.len();
    write!(out, "entail {number}: valid, residues {count}\n")?;
    push_residues(out, residues)
}

fn push_stopped(out: &mut String, pred: &Text, word: Word) -> Result<(), AllocError>
    ensures { OnOk result (string_bytes out.new ≡ string_bytes out.old ++ stopped_text pred.now word) }
{
    let word = word.as_str();
    write!(out, "pred {pred}: {word}\n")
}

fn push_unknown(out: &mut String, number: u32, why: &Why) -> Result<(), AllocError>
    ensures { OnOk result (string_bytes out.new ≡ string_bytes out.old ++ unknown_text number why.now) }
{
    write!(out, "entail {number}: unknown: ")?;
    push_why(out, why)?;
    write!(out, "\n")
}

fn push_causes(out: &mut String, causes: &[Tried]) -> Result<(), AllocError>
    ensures { OnOk result (string_bytes out.new ≡ string_bytes out.old ++ flat_map tried_text causes.now) }
{
    for cause in causes {
        push_tried(out, cause)?;
    }
    Ok(())
}

fn push_rejected(
    out: &mut String,
    name: &Text,
    pair: u32,
    point: u32,
    causes: &[Tried],
) -> Result<(), AllocError>
    ensures { OnOk result (string_bytes out.new ≡ string_bytes out.old ++ rejected_text name.now pair point causes.now) }
{
    write!(out, "method {name} pair {pair}: unknown at {point}\n")?;
    push_causes(out, causes)
}

// Adds a word at a node of a derivation.
fn push_node(out: &mut String, verdict: &str, node: u32, word: Word) -> Result<(), AllocError>
    ensures { OnOk result (string_bytes out.new ≡ string_bytes out.old ++ node_text verdict.now node word) }
{
    let word = word.as_str();
    write!(out, "{verdict} at node {node}: {word}\n")
}

fn push_returned(
    out: &mut String,
    value: &Option<i128>,
    steps: u64,
    heap: &Text,
) -> Result<(), AllocError>
    ensures { OnOk result (string_bytes out.new ≡ string_bytes out.old ++ returned_text value.now steps heap.now) }
{
    match value {
        None => write!(out, "returned after {steps} steps\n{heap}"),
        Some(value) => write!(out, "returned {value} after {steps} steps\n{heap}"),
    }
}

fn push_refused(out: &mut String, refusal: &Refusal) -> Result<(), AllocError>
    ensures { OnOk result (string_bytes out.new ≡ string_bytes out.old ++ refused_text refusal.now) }
{
    write!(out, "refused: ")?;
    push_refusal(out, refusal)?;
    write!(out, "\n")
}

// Adds the text of a line.
fn push_line(out: &mut String, line: &Line) -> Result<(), AllocError>
    ensures { OnOk result (string_bytes out.new ≡ string_bytes out.old ++ line_text line.now) }
{
    match line {
        Line::Shown(pred) => write!(out, "pred {pred}: shown\n"),
        Line::Fails(pred, valuation) => write!(out, "pred {pred}: fails at {valuation}\n"),
        Line::InvStopped(pred, word) => push_stopped(out, pred, *word),
        Line::Valid(number, residues) => push_valid(out, *number, residues.as_slice()),
        Line::Unknown(number, why) => push_unknown(out, *number, why),
        Line::Accepted(name, pair) => write!(out, "method {name} pair {pair}: accepted\n"),
        Line::Rejected(name, pair, point, causes) => {
            push_rejected(out, name, *pair, *point, causes.as_slice())
        }
        Line::PairInvariant(name, pair, pred) => {
            write!(
                out,
                "method {name} pair {pair}: unknown: invariant of {pred}\n"
            )
        }
        Line::SleekSummary(shown, preds, valid, entailments) => {
            write!(
                out,
                "summary: preds {shown}/{preds}, entailments {valid}/{entailments}\n"
            )
        }
        Line::HipSummary(shown, preds, accepted, pairs) => {
            write!(
                out,
                "summary: preds {shown}/{preds}, pairs {accepted}/{pairs}\n"
            )
        }
        Line::ProofAccepted(nodes, claims) => write!(
            out,
            "accepted: {nodes} nodes, {claims} claims\n"
        ),
        Line::ProofRefused(node, word) => push_node(out, "refused", *node, *word),
        Line::ProofMissing(claim) => write!(out, "missing claim {claim}\n"),
        Line::ProofStopped(node, word) => push_node(out, "stopped", *node, *word),
        Line::DerivationText(text, _) => write!(out, "{text}"),
        Line::CoreText(text) => write!(out, "{text}"),
        Line::SourceText(text) => write!(out, "{text}"),
        Line::Returned(value, steps, heap) => push_returned(out, value, *steps, heap),
        Line::Running(steps) => write!(out, "running after {steps} steps\n"),
        Line::Fault(name, point, location) => {
            write!(out, "fault in {name} at {point}: location {location}\n")
        }
        Line::RunWide(name, point) => write!(out, "past 128 bits in {name} at {point}\n"),
        Line::RefusedWords => write!(out, "refused: words\n"),
        Line::FileFault(name) => write!(out, "fault: file {name}\n"),
        Line::Refused(refusal) => push_refused(out, refusal),
    }
}

/// The text of a report.
pub fn text(alloc: Global, report: &[Line]) -> Result<String, NoMemory>
    ensures { IfOk result (λ text. string_bytes text ≡ text_of report.now) }
{
    let mut out = String::new(alloc);
    for line in report {
        push_line(&mut out, line)?;
    }
    Ok(out)
}
