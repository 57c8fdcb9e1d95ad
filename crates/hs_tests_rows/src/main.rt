//! A table of the tool: each line of the file `rows`, with the status and the report that it gives.
//!
//! A line is a source, which `sleek a` reads as the file `a`. A line that begins with `%` has the heap text of the file
//! `h`, where each `|` ends a line, and one that begins with `>` the derivation of the file `d`, where each `~` ends a
//! line; there are no other files. A line that begins with `$` has words, which stand in quotes where they are empty or
//! have blanks; the job that they name is told too, and the files are the last ones above. Of words behind `=` the status
//! alone is told, and their report becomes the file `d`. A line that begins with `//` is a heading.
#![tactic(auto)]

mod rows;

use hs_io::{Files, RealFiles};
use std::io;
use std::io::Write;
use std::process::ExitCode;

fn main(rt: HostRuntime) -> ExitCode {
    let alloc = rt.alloc();
    let Ok(bytes) = RealFiles::new(&rt).fetch(alloc, "rows", 1 << 20) else {
        return ExitCode::from(4);
    };
    let Ok(text) = rows::table(&rt, alloc, &bytes) else {
        return ExitCode::from(6);
    };
    match io::writer(&rt).write_all(&text) {
        Ok(()) => ExitCode::from(0),
        Err(_) => ExitCode::from(5),
    }
}
