//! A table of calls on predicates: each line of the file `rows`, with its answer.
//!
//! A line that begins with `//` is a heading. Other lines are a source, which replaces the definitions, or a call
//! on the definitions of the last source above:
//!
//! - `founded` tells whether they are founded, or the first fault
//! - `instantiate N A` puts the root and the arguments of the atom A into its predicate's body, with new numbers
//!   from N on
//! - `body L N A` is the approximation of that body at level L, and `xpure L N F` that of the atoms of the formula F
//! - `inv N A` and `lemma J N A` are so the invariant of the predicate of A, and the right side of the J-th lemma
//! - `rename N M F` puts vM in the place of vN in a formula of atoms alone, and tells whether a copy is equal
//! - `heap A B C` puts nodes at three locations, and gives the nodes, the least free place, and what was there
//! - `lines N` are the lines of predicates, where a stage of a decision may have N atoms
//!
//! Formulas, atoms and answers are written by numbers; the last part of an answer is the next unused number.
#![tactic(auto)]

mod calls;
mod given;
mod heaps;
mod rows;

use hs_io::{Files, RealFiles};
use std::io;
use std::io::Write;
use std::process::ExitCode;

fn main(rt: HostRuntime) -> ExitCode {
    let alloc = rt.alloc();
    let Ok(bytes) = RealFiles::new(&rt).fetch(alloc, "rows", 1 << 20) else {
        return ExitCode::from(4);
    };
    let Ok(text) = rows::table(alloc, &bytes) else {
        return ExitCode::from(6);
    };
    match io::writer(&rt).write_all(text.as_bytes()) {
        Ok(()) => ExitCode::from(0),
        Err(_) => ExitCode::from(5),
    }
}
