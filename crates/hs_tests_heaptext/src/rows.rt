//! Rows and what they are.

use crate::defs::data_types;
use crate::program::program;
use hs_core_text::core;
use hs_heap::{Defs, Heap};
use hs_heaptext::{HeapTextError, read_heap, write_heap};
use hs_pure::NoMemory;
use std::alloc::{AllocError, Global};
use std::str;

// The most bytes of a text, and the most data types.
const MOST_BYTES: usize = 1 << 20;

const MOST_TYPES: usize = 256;

// The byte that stands for a sign behind a backslash.
fn escaped(sign: u8) -> u8 {
    match sign {
        b'n' => b'\n',
        b'r' => b'\r',
        b't' => b'\t',
        b'f' => 255,
        other => other,
    }
}

fn unescaped(alloc: Global, row: &[u8]) -> Result<Vec<u8>, NoMemory> {
    let mut bytes = Vec::new(alloc);
    let mut behind = false;
    for byte in row {
        if behind {
            bytes.push(escaped(*byte))?;
            behind = false;
        } else if *byte == b'\\' {
            behind = true;
        } else {
            bytes.push(*byte)?;
        }
    }
    Ok(bytes)
}

fn push_values(out: &mut String, values: &[i128]) -> Result<(), AllocError> {
    for value in values {
        write!(out, " {value}")?;
    }
    write!(out, "\n")
}

// What was read: the arguments, and of each node its location, the number of its data type and its values.
fn push_read(out: &mut String, args: &[i128], heap: &Heap) -> Result<(), AllocError> {
    write!(out, "  arguments:")?;
    push_values(out, args)?;
    for (place, node) in heap.iter() {
        let of = node.of;
        write!(out, "  at {place} of type {of}:")?;
        push_values(out, node.values.as_slice())?;
    }
    Ok(())
}

// Whether the text that is written of what was read is the one that was read.
fn push_again(out: &mut String, text: &str, bytes: &[u8]) -> Result<(), AllocError> {
    if text.as_bytes() == bytes {
        return write!(out, "  the same text again\n");
    }
    write!(out, "  another text\n")
}

fn push_row(alloc: Global, out: &mut String, defs: &Defs, bytes: &[u8]) -> Result<(), NoMemory> {
    if bytes.len() > MOST_BYTES || defs.nodes.len() > MOST_TYPES {
        return Ok(());
    }
    match read_heap(alloc, defs, bytes) {
        Ok((args, heap)) => {
            push_read(out, args.as_slice(), &heap)?;
            let text = write_heap(alloc, defs, args.as_slice(), &heap)?;
            push_again(out, &text, bytes)?;
        }
        Err(HeapTextError::Line(n)) => write!(out, "  line {n}\n")?,
        Err(HeapTextError::Memory) => return Err(NoMemory),
    }
    Ok(())
}

fn push_core(alloc: Global, out: &mut String, defs: &Defs) -> Result<(), NoMemory> {
    let text = core(alloc, &program(alloc)?, defs)?;
    write!(out, "{text}")?;
    Ok(())
}

/// Each row with its answer.
pub fn table(alloc: Global, bytes: &[u8]) -> Result<String, NoMemory> {
    let mut out = String::new(alloc);
    let Ok(text) = str::from_utf8(bytes) else {
        return Ok(out);
    };
    let defs = data_types(alloc)?;
    for row in text.lines() {
        write!(out, "{row}\n")?;
        if row == "// core" {
            push_core(alloc, &mut out, &defs)?;
        } else if !row.starts_with("//") {
            let bytes = unescaped(alloc, row.as_bytes())?;
            push_row(alloc, &mut out, &defs, &bytes)?;
        }
        write!(out, "\n")?;
    }
    Ok(out)
}
