//! A table of pure formulas: each line of the file `rows`, with its answer.
//!
//! Formulas stand by numbers, as do variables and values: `v1=3 V2={1:2,5:1}` gives 3 to v1, and to V2 the bag that has
//! 1 twice and 5 once.
//!
//! - `eval F at VALUES` tells what F is at the values, or `wide`; a variable without a value is 0 or the empty bag
//! - `divides D at N` does so for `divides(D, v1)`, where v1 is N: a text spells no D below 1
//! - `rename F by v1=v2 v2=v1` shows the one conjunct of F with each variable in the place of another
//! - `plain F` tells whether no bag literal stands under a quantifier or inside of an `all`, and `inside B F` does so
//!   for F inside of B, which is `exists`, `forall` or `all`: it binds v5, of an `all` over V4
//! - `node N A B ..` shows the copy of a node of type N with the values A, B and so on
//!
//! A line that begins with `//` is a heading.
#![tactic(auto)]

mod answers;
mod rows;

use hs_io::{Files, RealFiles};
use std::io;
use std::io::Write;
use std::process::ExitCode;

fn main(rt: HostRuntime) -> ExitCode {
    let alloc = rt.alloc();
    let Ok(bytes) = RealFiles::new(&rt).fetch(alloc, "rows", 1 << 20) else {
        return ExitCode::from(4);
    };
    let Ok(text) = rows::table(alloc, &bytes) else {
        return ExitCode::from(6);
    };
    match io::writer(&rt).write_all(text.as_bytes()) {
        Ok(()) => ExitCode::from(0),
        Err(_) => ExitCode::from(5),
    }
}
