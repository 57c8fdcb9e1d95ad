//! A table of normal forms: each line of the file `rows`, with what it is by numbers, or its first fault.
//!
//! A line is a source. A line that begins with `//` is a heading. Other lines begin with a sign and a blank:
//!
//! - `%` a text of which the tokens are listed, with literals up to 99
//! - `~` a pure formula of which the items of each case are counted
//! - `=` a formula by numbers, over the definitions of the last source above, which is printed again
//! - `?` such a formula, of each conjunct of which the free variables are listed
//! - `@` a source whose entailments are printed under their source names, and by themselves the conjuncts on the left
//!
//! Literals may have 128 bits, so that sums reach their limits.
#![tactic(auto)]

mod faults;
mod forms;
mod rows;

use hs_io::{Files, RealFiles};
use std::io;
use std::io::Write;
use std::process::ExitCode;

fn main(rt: HostRuntime) -> ExitCode {
    let alloc = rt.alloc();
    let Ok(bytes) = RealFiles::new(&rt).fetch(alloc, "rows", 1 << 20) else {
        return ExitCode::from(4);
    };
    let Ok(text) = rows::table(alloc, &bytes) else {
        return ExitCode::from(6);
    };
    match io::writer(&rt).write_all(text.as_bytes()) {
        Ok(()) => ExitCode::from(0),
        Err(_) => ExitCode::from(5),
    }
}
