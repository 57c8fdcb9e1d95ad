//! The gallery: the commands of the file `jobs`, each on the sources beside it, with its report and its status.
//!
//! A line of `jobs` has the words of a command. A line `derivation FILE` stands for `prove FILE` and then `check` of what
//! it writes, of which the status alone is told. A line that begins with `//` is a heading.
#![tactic(auto)]

mod jobs;

use hs_io::{Files, RealFiles};
use std::io;
use std::io::Write;
use std::process::ExitCode;

fn main(rt: HostRuntime) -> ExitCode {
    let alloc = rt.alloc();
    let mut files = RealFiles::new(&rt);
    let Ok(bytes) = files.fetch(alloc, "jobs", 1 << 20) else {
        return ExitCode::from(4);
    };
    let Ok(text) = jobs::reports(&rt, alloc, &mut files, &bytes) else {
        return ExitCode::from(6);
    };
    match io::writer(&rt).write_all(&text) {
        Ok(()) => ExitCode::from(0),
        Err(_) => ExitCode::from(5),
    }
}
