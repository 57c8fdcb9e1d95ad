//! A table of programs and their runs: each line of the file `rows`, with its answer.
//!
//! Blocks are parted by an empty line. A block has a heading, then its methods, then rows of the program. A method has
//! the line `method NAME GIVES PARAMETERS SLOTS REFERENCES..`, where GIVES is `result` or `none`, then its instructions,
//! each after two blanks, from number 0 on. Data types are 1 `node`, with the fields 1 `val` and 2 `next`, and 2 `cell`,
//! with the field 1 `val`. In a term or a condition slot 3 is `v3`; a dash stands for no slot.
//!
//! - `assign TO TERM`, `new TO TYPE SLOTS..`, `get TO AT TYPE FIELD`, `set AT TYPE FIELD FROM`, `branch ELSE CONDITION`,
//!   `jump POINT`, `call TO METHOD SLOTS..`, `return FROM`
//! - `sound` tells whether the program is sound
//! - `run METHOD STEPS args ARGUMENTS..` runs a sound program, on the heap whose lines follow, each behind ` | `: the line
//!   of the run, the last values of reference parameters if there are some, and the text of the heap at its end
//!
//! `no row` stands where a program or a row is not of the form, or the run may not begin.
#![tactic(auto)]

mod instrs;
mod programs;
mod rows;
mod runs;
mod words;

use hs_io::{Files, RealFiles};
use std::io;
use std::io::Write;
use std::process::ExitCode;

fn main(rt: HostRuntime) -> ExitCode {
    let alloc = rt.alloc();
    let Ok(bytes) = RealFiles::new(&rt).fetch(alloc, "rows", 1 << 20) else {
        return ExitCode::from(4);
    };
    let Ok(text) = rows::table(alloc, &bytes) else {
        return ExitCode::from(6);
    };
    match io::writer(&rt).write_all(text.as_bytes()) {
        Ok(()) => ExitCode::from(0),
        Err(_) => ExitCode::from(5),
    }
}
