//! A table of heap texts: each line of the file `rows`, with what it states or its first bad line; and the text of a
//! core program.
//!
//! A line is a heap text in which `\n` is a line feed, `\r` a carriage return, `\t` a tab, `\f` the byte FF, which is
//! not UTF-8, and `\\` the sign itself. The data types are 1 `node` with two fields, 2 `tree` with three, 3 `nod` with
//! one and 4 `unit` with none. A line that begins with `//` is a heading. The core program is printed at the heading
//! `// core`.
#![tactic(auto)]

mod defs;
mod program;
mod rows;

use hs_io::{Files, RealFiles};
use std::io;
use std::io::Write;
use std::process::ExitCode;

fn main(rt: HostRuntime) -> ExitCode {
    let alloc = rt.alloc();
    let Ok(bytes) = RealFiles::new(&rt).fetch(alloc, "rows", 1 << 20) else {
        return ExitCode::from(4);
    };
    let Ok(text) = rows::table(alloc, &bytes) else {
        return ExitCode::from(6);
    };
    match io::writer(&rt).write_all(text.as_bytes()) {
        Ok(()) => ExitCode::from(0),
        Err(_) => ExitCode::from(5),
    }
}
