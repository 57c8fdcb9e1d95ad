//! A table of decided questions: each line of the file `rows`, with its answer.
//!
//! A line has a call, the most atoms of a stage where the call takes that, and formulas by numbers, where `v1` is a
//! number and `V1` a bag:
//!
//! - `implies N F |- G` and `unsat N F` show the answer with the values of a `no`
//! - `told N F |- G` shows it without them: `no` where evaluation too makes F true and G false at the values, else
//!   `wrong`
//! - `bags N F |- G` tells whether the answer agrees with a search: v1 and v2 go from -1 to 2, and V3 and V4 through the
//!   bags that have 0 and 1 at most twice each and nothing else
//! - `eliminate N F` of v1, `substitute v1 = T in F`, and `witness N M F`, the value of v1 where v2 is M
//! - `box F` eliminates v1 and seeks its values where v2 and v3 are from -6 to 6, and tells whether both agree with
//!   the search of v1 from -20 to 20; `box0 F` does so for `divides(0, v1) | F`
//!
//! What a call may not be asked is `no row`. A line that begins with `//` is a heading.
#![tactic(auto)]

mod answers;
mod bags;
mod boxes;
mod rows;

use hs_io::{Files, RealFiles};
use std::io;
use std::io::Write;
use std::process::ExitCode;

fn main(rt: HostRuntime) -> ExitCode {
    let alloc = rt.alloc();
    let Ok(bytes) = RealFiles::new(&rt).fetch(alloc, "rows", 1 << 20) else {
        return ExitCode::from(4);
    };
    let Ok(text) = rows::table(alloc, &bytes) else {
        return ExitCode::from(6);
    };
    match io::writer(&rt).write_all(text.as_bytes()) {
        Ok(()) => ExitCode::from(0),
        Err(_) => ExitCode::from(5),
    }
}
