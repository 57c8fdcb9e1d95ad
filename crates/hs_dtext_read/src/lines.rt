//! The lines of a derivation, and the first that is not of its form.

ghost use Rattle.std.specs.Prelude.{◌≡◌, ◌+◌, ◌<◌, ◌≤◌, ◌^◌, length};
ghost use Rattle.std.specs.List.{list_all};
ghost use Rattle.std.specs.Str as text;
ghost use Rattle.hs_line.specs.Pieces.{AreShort};
ghost use Rattle.hs_dtext.specs.Lines as spec;
ghost use Rattle.hs_dtext.specs.Stops.{Adds, Answers};

use crate::nodes::node;
use hs_dtext::{DTextError, LineError, Reading, Stage};
use hs_heap::Defs;
use hs_line::{Fault, Pieces, Rest, number_alone, past_blanks};
use hs_node::{Derivation, Node};
use sqlite_items::Items;
use std::alloc::Global;
use std::str;

#[tactic(auto, using(crate::proofs::Tokens::text_is, crate::proofs::Tokens::no_text_is))]
fn is_utf8(line: &[u8]) -> bool
    ensures { result ≡ text.is_utf8 line.now }
{
    match str::from_utf8(line) {
        Ok(_) => true,
        Err(_) => false,
    }
}

// ---- the first line

fn known(version: u32) -> Result<(), LineError>
    ensures { result ≡ spec.known version }
{
    if version == 1 {
        Ok(())
    } else {
        Err(LineError::Version(version))
    }
}

fn heading(line: &[u8]) -> Result<u32, Fault>
    ensures { result ≡ spec.heading line.now }
{
    let mut rest = Rest::new(line);
    rest.word(b"derivation")?;
    number_alone(rest.bytes())
}

fn first_line(line: &[u8]) -> Result<(), LineError>
    ensures { result ≡ spec.first_line line.now }
{
    if !is_utf8(line) {
        return Err(LineError::Bad(Fault::Utf8));
    }
    let version = heading(line)?;
    known(version)
}

// ---- nodes

// Whether a number is one from 1 that is below n.
fn is_earlier(n: u32, k: u32) -> bool
    ensures { result ≡ spec.is_earlier n k }
{
    1 <= k && k < n
}

fn are_earlier(n: u32, premises: &[u32]) -> bool
    ensures { result ≡ list_all (spec.is_earlier n) premises.now }
{
    premises.iter().all(|k| is_earlier(n, *k))
}

// The number of the next node.
fn next_number(reading: &Reading) -> u32
    requires { length reading.now.nodes + 1 < 2 ^ 32 }
    ensures { result ≡ length reading.now.nodes + 1 }
{
    reading.nodes.len() as u32 + 1
}

fn add_node(reading: &mut Reading, node: Node) -> Result<(), LineError>
    requires { length reading.old.nodes + 1 < 2 ^ 32 }
    ensures exact { Adds (spec.add_node reading.old node) result reading.new }
    ensures grown { length reading.new.nodes ≤ length reading.old.nodes + 1 }
{
    if !are_earlier(next_number(reading), node.premises.as_slice()) {
        return Err(LineError::Forward);
    }
    reading.nodes.push(node)?;
    Ok(())
}

fn node_line(
    alloc: Global,
    defs: &Defs,
    reading: &mut Reading,
    line: &[u8],
) -> Result<(), LineError>
    requires few { length reading.old.nodes + 1 < 2 ^ 32 }
    requires short { length line.now < 2 ^ 32 }
    ensures exact { Adds (spec.node_line defs.now reading.old line.now) result reading.new }
    ensures grown { length reading.new.nodes ≤ length reading.old.nodes + 1 }
{
    let mut parts = Pieces::new(line, b';');
    let node = node(alloc, defs, next_number(reading), &mut parts)?;
    add_node(reading, node)
}

// ---- claims

// Whether a claim's number is above that of the one before.
fn rises(claims: &[(u32, u32)], k: u32) -> bool
    ensures { result ≡ spec.rises claims.now k }
{
    match claims.last() {
        None => true,
        Some(claim) => claim.0 < k,
    }
}

fn claim(claims: &[(u32, u32)], rest: &mut Rest<'_>) -> Result<(u32, u32), Fault>
    ensures { result ≡ spec.claim claims.now rest.old }
{
    let k = rest.number()?;
    if !rises(claims, k) {
        return Err(Fault::Number);
    }
    let node = number_alone(rest.bytes())?;
    Ok((k, node))
}

fn add_claim(reading: &mut Reading, claim: (u32, u32)) -> Result<(), LineError>
    requires { length reading.old.nodes + 1 < 2 ^ 32 }
    ensures exact { Adds (spec.add_claim reading.old claim) result reading.new }
    ensures grown { reading.new.nodes ≡ reading.old.nodes }
{
    if !is_earlier(next_number(reading), claim.1) {
        return Err(LineError::Forward);
    }
    reading.stage = Stage::Claims;
    reading.claims.push(claim)?;
    Ok(())
}

fn claim_line(reading: &mut Reading, rest: &mut Rest<'_>) -> Result<(), LineError>
    requires { length reading.old.nodes + 1 < 2 ^ 32 }
    ensures exact { Adds (spec.claim_line reading.old rest.old) result reading.new }
    ensures grown { reading.new.nodes ≡ reading.old.nodes }
{
    let claim = claim(reading.claims.as_slice(), rest)?;
    add_claim(reading, claim)
}

// ---- lines by their first word

fn end_line(reading: &mut Reading, rest: &Rest<'_>) -> Result<(), LineError>
    ensures exact { Adds (spec.end_line reading.old rest.now) result reading.new }
    ensures grown { reading.new.nodes ≡ reading.old.nodes }
{
    rest.over()?;
    reading.stage = Stage::Ended;
    Ok(())
}

fn by_word(reading: &mut Reading, line: &[u8]) -> Result<(), LineError>
    requires { length reading.old.nodes + 1 < 2 ^ 32 }
    ensures exact { Adds (spec.worded_line reading.old line.now) result reading.new }
    ensures grown { reading.new.nodes ≡ reading.old.nodes }
{
    let mut rest = Rest::new(line);
    let word = rest.name();
    if word == b"claim".as_slice() {
        return claim_line(reading, &mut rest);
    }
    if word == b"end".as_slice() {
        return end_line(reading, &rest);
    }
    Err(LineError::Bad(Fault::Word))
}

// Whether a line is passed over.
fn is_remark(line: &[u8]) -> bool
    ensures { result ≡ spec.is_remark line.now }
{
    matches!(line, [b'#', ..])
}

// Whether the line of a node comes next.
fn is_node_line(stage: Stage, line: &[u8]) -> bool
    ensures { result ≡ spec.is_node_line stage line.now }
{
    match (stage, past_blanks(line)) {
        (Stage::Nodes, [first, ..]) => first.is_ascii_digit(),
        _ => false,
    }
}

fn later_line(
    alloc: Global,
    defs: &Defs,
    reading: &mut Reading,
    line: &[u8],
) -> Result<(), LineError>
    requires few { length reading.old.nodes + 1 < 2 ^ 32 }
    requires short { length line.now < 2 ^ 32 }
    ensures exact { Adds (spec.later_line defs.now reading.old line.now) result reading.new }
    ensures grown { length reading.new.nodes ≤ length reading.old.nodes + 1 }
{
    if !is_utf8(line) {
        return Err(LineError::Bad(Fault::Utf8));
    }
    if is_remark(line) {
        return Ok(());
    }
    if is_node_line(reading.stage, line) {
        return node_line(alloc, defs, reading, line);
    }
    by_word(reading, line)
}

// ---- all lines

fn at_line(n: u32, error: LineError) -> DTextError
    ensures { result ≡ spec.at_line n error }
{
    match error {
        LineError::Version(version) => DTextError::Version(version),
        LineError::Forward => DTextError::Forward(n),
        LineError::Bad(fault) => DTextError::Line(n, fault),
        LineError::Memory => DTextError::Memory,
    }
}

fn has_ended(stage: Stage) -> bool
    ensures { result ≡ spec.has_ended stage }
{
    matches!(stage, Stage::Ended)
}

// The derivation that was read, where nothing stands behind the end of the last line.
fn at_end(n: u32, reading: Reading, rest: &[u8]) -> Result<Derivation, DTextError>
    ensures { result ≡ spec.at_end n reading rest.now }
{
    if has_ended(reading.stage) && rest.is_empty() {
        return Ok(Derivation {
            nodes: reading.nodes,
            claims: reading.claims,
        });
    }
    Err(DTextError::Line(n, Fault::End))
}

fn begun(alloc: Global) -> Reading
    ensures { result ≡ spec.begun }
{
    Reading {
        stage: Stage::Nodes,
        nodes: Items::new(alloc),
        claims: Items::new(alloc),
    }
}

// What the lines behind the first are read as.
fn later_lines(alloc: Global, defs: &Defs, lines: &mut Pieces<'_>) -> Result<Derivation, DTextError>
    requires short { AreShort lines.old }
    requires few { length lines.old + 2 < 2 ^ 32 }
    ensures { Answers (spec.lines_from defs.now 2 spec.begun lines.old) result }
{
    let mut reading = begun(alloc);
    let mut number = 2;
    while let Some(line) = lines.next() {
        if lines.is_over() {
            return at_end(number, reading, line);
        }
        if has_ended(reading.stage) {
            return Err(DTextError::Line(number, Fault::End));
        }
        if let Err(error) = later_line(alloc, defs, &mut reading, line) {
            return Err(at_line(number, error));
        }
        number += 1;
    }
    Err(DTextError::Line(number, Fault::End))
}

/// The derivation that a text is, or its first fault by line: `Version` where the first line names a version other
/// than 1, `Forward` where a premise or the node of a claim is not there yet, `Line` where the line is not of its
/// form. `Version` and `Forward` come only where the whole line is of its form. The text has fewer than 2^32 - 2
/// bytes.
pub fn read_derivation(alloc: Global, defs: &Defs, bytes: &[u8]) -> Result<Derivation, DTextError>
    requires short { length bytes.now + 2 < 2 ^ 32 }
    ensures exact { Answers (spec.derivation_of defs.now bytes.now) result }
{
    let mut lines = Pieces::new(bytes, b'\n');
    let Some(line) = lines.next() else {
        return Err(DTextError::Line(1, Fault::End));
    };
    if lines.is_over() {
        return Err(DTextError::Line(1, Fault::End));
    }
    if let Err(error) = first_line(line) {
        return Err(at_line(1, error));
    }
    later_lines(alloc, defs, &mut lines)
}
