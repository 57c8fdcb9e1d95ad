//! A table of formulas with bags: each line of the file `rows`, with its answer.
//!
//! A line has a call and a formula by numbers, where `v1` is a number and `V1` a bag:
//!
//! - `reduce F` reduces F, seeks a solution of the copy of its reduction, by rows of equations or else by elimination,
//!   and gives it bags: `true` where evaluation makes F true there, else `wrong`; `none` where there is no solution,
//!   and `atoms` where elimination stops
//! - `counts F` shows the counts of the reduction, each as its bag and its variable, and the first number after all
//! - `plain N F` makes the plain reduction where N comparisons are allowed: it `fits`, or there are too many `atoms`
//! - `under B F` does as `counts` for F inside of B, which is `exists`, `forall` or `all`: it binds v5, of an `all` over
//!   V4; `under` stands where a bag literal is inside
//!
//! `wide` stands where a number passes 128 bits. A line that begins with `//` is a heading.
#![tactic(auto)]

mod answers;
mod rows;
mod solving;

use hs_io::{Files, RealFiles};
use std::io;
use std::io::Write;
use std::process::ExitCode;

fn main(rt: HostRuntime) -> ExitCode {
    let alloc = rt.alloc();
    let Ok(bytes) = RealFiles::new(&rt).fetch(alloc, "rows", 1 << 20) else {
        return ExitCode::from(4);
    };
    let Ok(text) = rows::table(alloc, &bytes) else {
        return ExitCode::from(6);
    };
    match io::writer(&rt).write_all(text.as_bytes()) {
        Ok(()) => ExitCode::from(0),
        Err(_) => ExitCode::from(5),
    }
}
