//! A table of calls of files and sinks: each line of the file `rows`, with its answer.
//!
//! A line has a file or a sink, and what it is asked:
//!
//! - `real NAME N`, `memory NAME N` and `sure NAME N` fetch the file of at most N bytes: of the system, of files in
//!   memory of which the second fetch fails, and of files that never fail. Those in memory are two of the name `a`, with
//!   the bytes `1` and `2`
//! - `pieces TEXT` puts the text into a sink in memory that takes three bytes at once, and of which the second put
//!   fails; `whole TEXT` puts it into one that never fails; `taken pieces` and `taken whole` show what they took so far
//!
//! In front of the table stands what was put into the system's sink. A line that begins with `//` is a heading.
#![tactic(auto)]

mod answers;
mod rows;

use hs_io::{Files, RealFiles, RealSink, Sink};
use std::io;
use std::io::Write;
use std::process::ExitCode;

fn main(rt: HostRuntime) -> ExitCode {
    let alloc = rt.alloc();
    let mut files = RealFiles::new(&rt);
    let Ok(bytes) = files.fetch(alloc, "rows", 1 << 20) else {
        return ExitCode::from(4);
    };
    let mut sink = RealSink::new(&rt);
    let taken = sink.put(b"taken\n");
    let none = sink.put(b"");
    let Ok(text) = rows::table(alloc, &mut files, &bytes, taken, none) else {
        return ExitCode::from(6);
    };
    match io::writer(&rt).write_all(text.as_bytes()) {
        Ok(()) => ExitCode::from(0),
        Err(_) => ExitCode::from(5),
    }
}
