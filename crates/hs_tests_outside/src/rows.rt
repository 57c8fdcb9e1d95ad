//! Rows and their answers.

use crate::answers::{NoRow, push_bytes, push_fetched, push_put};
use hs_io::{Files, MemFiles, MemSink, PutError, RealFiles, Sink, SureFiles, SureSink};
use std::alloc::{AllocError, Global};
use std::{rt, str};

// The files and sinks in memory.
#[derive(Drop)]
struct Memory {
    files: MemFiles,
    sure_files: SureFiles,
    pieces: MemSink,
    whole: SureSink,
}

// Two files of one name, with the bytes `1` and `2`.
fn pairs(alloc: Global) -> Result<Vec<(String, Vec<u8>)>, AllocError> {
    let mut pairs = Vec::new(alloc);
    for text in [b"1", b"2"] {
        let name = String::from_str(alloc, "a")?;
        pairs.push((name, text.to_vec(alloc)?))?;
    }
    Ok(pairs)
}

fn unused(alloc: Global) -> Result<Memory, NoRow> {
    Ok(Memory {
        files: MemFiles::new(pairs(alloc)?, vec![in alloc; 2]?),
        sure_files: SureFiles::new(pairs(alloc)?),
        pieces: MemSink::new(alloc, vec![in alloc; 2]?, 3),
        whole: SureSink::new(alloc),
    })
}

// A name, and the most bytes.
fn asked(text: &str) -> Result<(&str, u64), NoRow> {
    let Some((name, most)) = text.split_once(" ") else {
        return Err(NoRow);
    };
    match most.parse::<u64>() {
        Ok(most) => Ok((name, most)),
        Err(_) => Err(NoRow),
    }
}

fn push_file<F: Files>(
    alloc: Global,
    out: &mut String,
    files: &mut F,
    text: &str,
) -> Result<(), NoRow> {
    let (name, most) = asked(text)?;
    push_fetched(out, &files.fetch(alloc, name, most))
}

// What a sink in memory took so far.
fn push_taken(out: &mut String, memory: &Memory, name: &str) -> Result<(), NoRow> {
    match name {
        "pieces" => push_bytes(out, memory.pieces.written()),
        "whole" => push_bytes(out, memory.whole.written()),
        _ => Err(NoRow),
    }
}

fn push_row<R: rt::Files>(
    alloc: Global,
    out: &mut String,
    real: &mut RealFiles<'_, R>,
    memory: &mut Memory,
    row: &str,
) -> Result<(), NoRow> {
    let Some((call, rest)) = row.split_once(" ") else {
        return Err(NoRow);
    };
    match call {
        "real" => push_file(alloc, out, real, rest),
        "memory" => push_file(alloc, out, &mut memory.files, rest),
        "sure" => push_file(alloc, out, &mut memory.sure_files, rest),
        "pieces" => push_put(out, memory.pieces.put(rest.as_bytes())),
        "whole" => push_put(out, memory.whole.put(rest.as_bytes())),
        "taken" => push_taken(out, memory, rest),
        _ => Err(NoRow),
    }
}

// What the system's sink answered.
fn push_system(
    out: &mut String,
    taken: Result<usize, PutError>,
    none: Result<usize, PutError>,
) -> Result<(), NoRow> {
    push_put(out, taken)?;
    write!(out, "\n")?;
    push_put(out, none)?;
    write!(out, "\n\n")?;
    Ok(())
}

/// The answers of the system's sink, and each row with its answer.
pub fn table<R: rt::Files>(
    alloc: Global,
    real: &mut RealFiles<'_, R>,
    bytes: &[u8],
    taken: Result<usize, PutError>,
    none: Result<usize, PutError>,
) -> Result<String, NoRow> {
    let mut out = String::new(alloc);
    let Ok(text) = str::from_utf8(bytes) else {
        return Err(NoRow);
    };
    push_system(&mut out, taken, none)?;
    let mut memory = unused(alloc)?;
    for row in text.lines() {
        write!(out, "{row}\n")?;
        if !row.starts_with("//") {
            write!(out, "  ")?;
            push_row(alloc, &mut out, real, &mut memory, row)?;
            write!(out, "\n")?;
        }
        write!(out, "\n")?;
    }
    Ok(out)
}
