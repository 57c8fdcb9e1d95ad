//! Commands and what they print.

use hs_io::{Files, MemFiles, MemSink};
use hs_tool::run_tool;
use std::alloc::{AllocError, Global};
use std::str;
use std::thread::Threads;

fn push_str(out: &mut Vec<u8>, text: &str) -> Result<(), AllocError> {
    out.extend_from_slice(text.as_bytes())
}

fn words_of(alloc: Global, line: &str) -> Result<Vec<String>, AllocError> {
    let mut words = Vec::new(alloc);
    for word in line.split_whitespace() {
        words.push(String::from_str(alloc, word)?)?;
    }
    Ok(words)
}

// The status and the report of the words, on these files.
fn report<H: Threads + Sync, F: Files>(
    rt: &H,
    alloc: Global,
    line: &str,
    files: &mut F,
) -> Result<(u8, Vec<u8>), AllocError> {
    let words = words_of(alloc, line)?;
    let mut sink = MemSink::new(alloc, Vec::new(alloc), 4_096);
    let status = run_tool(rt, alloc, &words, files, &mut sink, &|_number: u32| {});
    Ok((status, sink.written().to_vec(alloc)?))
}

fn push_report(
    alloc: Global,
    out: &mut Vec<u8>,
    status: u8,
    report: &[u8],
) -> Result<(), AllocError> {
    out.extend_from_slice(report)?;
    push_str(out, format!(in alloc; "status {status}\n\n")?.as_str())
}

// The files of a check: the source `a` and the derivation `d`.
fn files_of(alloc: Global, source: &[u8], derivation: &[u8]) -> Result<MemFiles, AllocError> {
    let a = (String::from_str(alloc, "a")?, source.to_vec(alloc)?);
    let d = (String::from_str(alloc, "d")?, derivation.to_vec(alloc)?);
    Ok(MemFiles::new(vec![in alloc; a, d]?, Vec::new(alloc)))
}

// The status of `check` on what `prove` writes of a source.
fn push_checked<H: Threads + Sync>(
    rt: &H,
    alloc: Global,
    out: &mut Vec<u8>,
    source: &[u8],
) -> Result<(), AllocError> {
    let mut files = files_of(alloc, source, b"")?;
    let (_, derivation) = report(rt, alloc, "prove a", &mut files)?;
    let mut files = files_of(alloc, source, &derivation)?;
    let (status, _) = report(rt, alloc, "check a d", &mut files)?;
    push_report(alloc, out, status, b"")
}

fn push_job<H: Threads + Sync, F: Files>(
    rt: &H,
    alloc: Global,
    out: &mut Vec<u8>,
    files: &mut F,
    line: &str,
) -> Result<(), AllocError> {
    if let Some(name) = line.strip_prefix("derivation ") {
        match files.fetch(alloc, name, 1 << 20) {
            Ok(source) => push_checked(rt, alloc, out, &source),
            Err(_) => push_str(out, "no such file\n\n"),
        }
    } else {
        let (status, report) = report(rt, alloc, line, files)?;
        push_report(alloc, out, status, &report)
    }
}

/// Each command of the lines, with what it gives on the files.
pub fn reports<H: Threads + Sync, F: Files>(
    rt: &H,
    alloc: Global,
    files: &mut F,
    bytes: &[u8],
) -> Result<Vec<u8>, AllocError> {
    let mut out = Vec::new(alloc);
    let Ok(text) = str::from_utf8(bytes) else {
        return Ok(out);
    };
    for line in text.lines() {
        push_str(&mut out, line)?;
        push_str(&mut out, "\n")?;
        if line.starts_with("//") || line.is_empty() {
            continue;
        }
        push_job(rt, alloc, &mut out, files, line)?;
    }
    Ok(out)
}
