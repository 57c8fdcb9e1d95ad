//! A table of texts of derivations: each block of the file `rows`, with what is written of the derivation that it is
//! read as, or its first fault.
//!
//! Blocks are parted by an empty line. Lines that begin with `//` are headings, and the others are the lines of a text.
//! There `\` at the end of a line leaves its line feed out, `\n` is a line feed, `\f` the byte FF, which is not UTF-8,
//! and `\` before another sign is that sign. The data type is 1 `node` with the fields `val` and `next`; predicates are
//! 1 `ll` with one argument, an int, and 2 `bag` with one, a bag. What is written is that of a copy of the derivation.
//! Under the heading `// open claims` the text's derivation is written again with two further claims, which are open.
#![tactic(auto)]

mod defs;
mod rows;

use hs_io::{Files, RealFiles};
use std::io;
use std::io::Write;
use std::process::ExitCode;

fn main(rt: HostRuntime) -> ExitCode {
    let alloc = rt.alloc();
    let Ok(bytes) = RealFiles::new(&rt).fetch(alloc, "rows", 1 << 20) else {
        return ExitCode::from(4);
    };
    let Ok(text) = rows::table(alloc, &bytes) else {
        return ExitCode::from(6);
    };
    match io::writer(&rt).write_all(text.as_bytes()) {
        Ok(()) => ExitCode::from(0),
        Err(_) => ExitCode::from(5),
    }
}
