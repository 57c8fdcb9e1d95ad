//! Rows and what they give.

use hs_cli::{Job, Options, WordsError, job};
use hs_io::{MemFiles, MemSink};
use hs_text::Text;
use hs_tool::run_tool;
use std::alloc::{AllocError, Global};
use std::str;
use std::thread::Threads;

fn push_str(out: &mut Vec<u8>, text: &str) -> Result<(), AllocError> {
    out.extend_from_slice(text.as_bytes())
}

// The files: the source `a`, the heap text `h`, and the derivation `d`.
fn files(
    alloc: Global,
    source: &[u8],
    heap: &[u8],
    derivation: &[u8],
) -> Result<MemFiles, AllocError> {
    let a = (String::from_str(alloc, "a")?, source.to_vec(alloc)?);
    let h = (String::from_str(alloc, "h")?, heap.to_vec(alloc)?);
    let d = (String::from_str(alloc, "d")?, derivation.to_vec(alloc)?);
    Ok(MemFiles::new(vec![in alloc; a, h, d]?, Vec::new(alloc)))
}

// The status and the report of the words. The sink takes 7 bytes at a time.
fn report<H: Threads + Sync>(
    rt: &H,
    alloc: Global,
    words: &[String],
    source: &[u8],
    heap: &[u8],
    derivation: &[u8],
) -> Result<(u8, Vec<u8>), AllocError> {
    let mut files = files(alloc, source, heap, derivation)?;
    let mut sink = MemSink::new(alloc, Vec::new(alloc), 7);
    let status = run_tool(rt, alloc, words, &mut files, &mut sink, &|_number: u32| {});
    Ok((status, sink.written().to_vec(alloc)?))
}

fn push_report<H: Threads + Sync>(
    rt: &H,
    alloc: Global,
    out: &mut Vec<u8>,
    words: &[String],
    source: &[u8],
    heap: &[u8],
    derivation: &[u8],
) -> Result<(), AllocError> {
    let (status, report) = report(rt, alloc, words, source, heap, derivation)?;
    push_str(out, format!(in alloc; "status {status}\n")?.as_str())?;
    out.extend_from_slice(&report)?;
    push_str(out, "\n")
}

// The status of the words of a row. Their report is answered, and not told.
fn push_status<H: Threads + Sync>(
    rt: &H,
    alloc: Global,
    out: &mut Vec<u8>,
    row: &str,
    source: &[u8],
    heap: &[u8],
    derivation: &[u8],
) -> Result<Vec<u8>, AllocError> {
    let words = words_of(alloc, row)?;
    let (status, report) = report(rt, alloc, &words, source, heap, derivation)?;
    push_str(out, format!(in alloc; "status {status}\n\n")?.as_str())?;
    Ok(report)
}

// The words of a row, which are parted by blanks outside of quotes.
fn words_of(alloc: Global, row: &str) -> Result<Vec<String>, AllocError> {
    let mut words = Vec::new(alloc);
    let mut quoted = false;
    for part in row.split('"') {
        if quoted {
            words.push(String::from_str(alloc, part)?)?;
        } else {
            for word in part.split_whitespace() {
                words.push(String::from_str(alloc, word)?)?;
            }
        }
        quoted = !quoted;
    }
    Ok(words)
}

fn options_text(alloc: Global, options: &Options) -> Result<String, AllocError> {
    let Options {
        rank,
        goals,
        atoms,
        level,
        residues,
        pieces,
        steps,
    } = *options;
    format!(in alloc;
        "rank {rank}, goals {goals}, atoms {atoms}, xpure {level}, residues {residues}, pieces {pieces}, steps {steps}"
    )
}

// A job on one file, with its options.
fn search_text(
    alloc: Global,
    word: &str,
    file: &Text,
    options: &Options,
) -> Result<String, AllocError> {
    let text = options_text(alloc, options)?;
    format!(in alloc; "{word} {file}, {text}\n")
}

fn check_text(
    alloc: Global,
    file: &Text,
    proof: &Text,
    options: &Options,
) -> Result<String, AllocError> {
    let text = options_text(alloc, options)?;
    format!(in alloc; "check {file} {proof}, {text}\n")
}

fn run_text(
    alloc: Global,
    file: &Text,
    method: &Text,
    heap: &Text,
    options: &Options,
) -> Result<String, AllocError> {
    let text = options_text(alloc, options)?;
    format!(in alloc; "run {file} {method} {heap}, {text}\n")
}

// The line of a job.
fn job_text(alloc: Global, job: Job) -> Result<String, AllocError> {
    match job {
        Job::Sleek(file, options) => search_text(alloc, "sleek", &file, &options),
        Job::Hip(file, options) => search_text(alloc, "hip", &file, &options),
        Job::Prove(file, options) => search_text(alloc, "prove", &file, &options),
        Job::Check(file, proof, options) => check_text(alloc, &file, &proof, &options),
        Job::Core(file) => format!(in alloc; "core {file}\n"),
        Job::Run(file, method, heap, options) => run_text(alloc, &file, &method, &heap, &options),
    }
}

// The job that the words name.
fn push_job(alloc: Global, out: &mut Vec<u8>, words: &[String]) -> Result<(), AllocError> {
    match job(alloc, words) {
        Ok(job) => push_str(out, job_text(alloc, job)?.as_str()),
        Err(WordsError::Words) => push_str(out, "no job\n"),
        Err(WordsError::Memory) => Err(AllocError),
    }
}

fn push_row<H: Threads + Sync>(
    rt: &H,
    alloc: Global,
    out: &mut Vec<u8>,
    source: &[u8],
    heap: &[u8],
    derivation: &[u8],
    row: &str,
) -> Result<(), AllocError> {
    if let Some(words) = row.strip_prefix("$ ") {
        let words = words_of(alloc, words)?;
        push_job(alloc, out, &words)?;
        push_report(rt, alloc, out, &words, source, heap, derivation)
    } else {
        let words = words_of(alloc, "sleek a")?;
        push_report(rt, alloc, out, &words, row.as_bytes(), heap, derivation)
    }
}

// The text of a row, where a line ends at each byte `end`.
fn lines_of(alloc: Global, row: &str, end: u8) -> Result<Vec<u8>, AllocError> {
    let mut text = Vec::new(alloc);
    for byte in row.as_bytes() {
        text.push(if *byte == end { b'\n' } else { *byte })?;
    }
    Ok(text)
}

// Whether a row gives no report: a heading, a heap text or a derivation.
fn is_silent(row: &str) -> bool {
    row.starts_with("//") || row.starts_with("% ") || row.starts_with("> ")
}

/// Each row, with what it gives.
pub fn table<H: Threads + Sync>(
    rt: &H,
    alloc: Global,
    bytes: &[u8],
) -> Result<Vec<u8>, AllocError> {
    let mut out = Vec::new(alloc);
    let Ok(text) = str::from_utf8(bytes) else {
        return Ok(out);
    };
    let mut source = "".as_bytes();
    let mut heap = Vec::new(alloc);
    let mut derivation = Vec::new(alloc);
    for row in text.lines() {
        push_str(&mut out, row)?;
        push_str(&mut out, "\n")?;
        if let Some(lines) = row.strip_prefix("% ") {
            heap = lines_of(alloc, lines, b'|')?;
        }
        if let Some(lines) = row.strip_prefix("> ") {
            derivation = lines_of(alloc, lines, b'~')?;
        }
        if is_silent(row) {
            push_str(&mut out, "\n")?;
        } else if let Some(words) = row.strip_prefix("= ") {
            derivation = push_status(rt, alloc, &mut out, words, source, &heap, &derivation)?;
        } else {
            push_row(rt, alloc, &mut out, source, &heap, &derivation, row)?;
            if !row.starts_with("$ ") {
                source = row.as_bytes();
            }
        }
    }
    Ok(out)
}
