//! Blocks and their answers.

use crate::defs::defs;
use hs_dtext::{ClaimLine, DTextError, write, write_proved};
use hs_dtext_read::read_derivation;
use hs_heap::Defs;
use hs_line::Fault;
use hs_node::Derivation;
use hs_pure::NoMemory;
use hs_text::Text;
use sqlite_items::Items;
use std::alloc::{AllocError, Global};
use std::str;

// The most bytes of a text.
const MOST_BYTES: usize = 1 << 20;

// The byte that stands for a sign behind a backslash.
fn escaped(sign: u8) -> u8 {
    match sign {
        b'n' => b'\n',
        b'f' => 255,
        other => other,
    }
}

// Adds a line of a text; a backslash at its end leaves the line feed out.
fn push_line(bytes: &mut Vec<u8>, line: &[u8]) -> Result<(), NoMemory> {
    let mut behind = false;
    for byte in line {
        if behind {
            bytes.push(escaped(*byte))?;
            behind = false;
        } else if *byte == b'\\' {
            behind = true;
        } else {
            bytes.push(*byte)?;
        }
    }
    if !behind {
        bytes.push(b'\n')?;
    }
    Ok(())
}

// The text of a block.
fn text_of(alloc: Global, block: &str) -> Result<Vec<u8>, NoMemory> {
    let mut bytes = Vec::new(alloc);
    for line in block.lines() {
        if !line.starts_with("//") {
            push_line(&mut bytes, line.as_bytes())?;
        }
    }
    Ok(bytes)
}

// Adds each line of a text behind two blanks.
fn push_text(out: &mut String, text: &str) -> Result<(), AllocError> {
    for line in text.lines() {
        write!(out, "  {line}\n")?;
    }
    Ok(())
}

fn fault_word(fault: Fault) -> &'static str {
    match fault {
        Fault::Utf8 => "not UTF-8",
        Fault::Word => "word",
        Fault::Number => "number",
        Fault::Name => "name",
        Fault::Arity => "arity",
        Fault::Formula => "formula",
        Fault::End => "end",
    }
}

fn push_fault(out: &mut String, error: DTextError) -> Result<(), NoMemory> {
    match error {
        DTextError::Version(version) => write!(out, "  version {version}\n")?,
        DTextError::Forward(line) => write!(out, "  line {line}: forward\n")?,
        DTextError::Line(line, fault) => {
            let word = fault_word(fault);
            write!(out, "  line {line}: {word}\n")?
        }
        DTextError::Memory => return Err(NoMemory),
    }
    Ok(())
}

// The claims of a derivation, an open one before them and one behind.
fn claim_lines(alloc: Global, claims: &[(u32, u32)]) -> Result<Items<ClaimLine>, NoMemory> {
    let mut lines = Items::new(alloc);
    lines.push(ClaimLine::Open(1, Text::from_str(alloc, "rank 0 spent")?))?;
    for claim in claims {
        lines.push(ClaimLine::Shown(claim.0, claim.1))?;
    }
    lines.push(ClaimLine::Open(9, Text::from_str(alloc, "numbers spent")?))?;
    Ok(lines)
}

fn push_open(
    alloc: Global,
    out: &mut String,
    defs: &Defs,
    derivation: &Derivation,
) -> Result<(), NoMemory> {
    let lines = claim_lines(alloc, derivation.claims.as_slice())?;
    let text = write_proved(alloc, defs, derivation.nodes.as_slice(), lines.as_slice())?;
    Ok(push_text(out, &text)?)
}

// What is written of a copy.
fn push_read(
    alloc: Global,
    out: &mut String,
    defs: &Defs,
    derivation: &Derivation,
) -> Result<(), NoMemory> {
    let again = derivation.copy(alloc)?;
    let text = write(alloc, defs, &again)?;
    Ok(push_text(out, &text)?)
}

// The block as it stands.
fn push_given(out: &mut String, block: &str) -> Result<(), AllocError> {
    for line in block.lines() {
        write!(out, "{line}\n")?;
    }
    Ok(())
}

// Whether a line of a text stands in the block.
fn has_text(block: &str) -> bool {
    let mut found = false;
    for line in block.lines() {
        found = found || !line.starts_with("//");
    }
    found
}

fn push_answer(
    alloc: Global,
    out: &mut String,
    defs: &Defs,
    open: bool,
    bytes: &[u8],
) -> Result<(), NoMemory> {
    if bytes.len() > MOST_BYTES {
        return Ok(());
    }
    match read_derivation(alloc, defs, bytes) {
        Err(error) => push_fault(out, error),
        Ok(derivation) => {
            if open {
                push_open(alloc, out, defs, &derivation)
            } else {
                push_read(alloc, out, defs, &derivation)
            }
        }
    }
}

/// Each block with its answer.
pub fn table(alloc: Global, bytes: &[u8]) -> Result<String, NoMemory> {
    let mut out = String::new(alloc);
    let Ok(text) = str::from_utf8(bytes) else {
        return Ok(out);
    };
    let defs = defs(alloc)?;
    for block in text.split("\n\n") {
        push_given(&mut out, block)?;
        if has_text(block) {
            let bytes = text_of(alloc, block)?;
            let open = block.starts_with("// open claims");
            push_answer(alloc, &mut out, &defs, open, &bytes)?;
        }
        write!(out, "\n")?;
    }
    Ok(out)
}
