//! A table of the entailment rules: each line of the file `rows`, with its answer.
//!
//! A line that begins with `//` is a heading. Other lines are a source, a goal, a rule, a step or a call:
//!
//! - a source replaces the definitions; where it has an entailment, the goal is that of the first one, and no steps
//!   are left
//! - `goal used F ; left F ; opens V, .. ; right F ; next N ; looked B` is a goal
//! - a rule with its places, as `match 1 1`, is applied to the goal: the answer has the subgoals, and what is asked.
//!   Where a residue for each subgoal follows it, parted by ` ; `, the answer has the residue too
//! - `N RULE ; from P, .. ; used .. ; looked B ; residue F` is the N-th step, from earlier ones: whether it is right.
//!   Its goal becomes the goal
//! - `shape` tells whether the goal is well formed, and `classes V W` whether its left side joins two variables
//! - `atoms N` allows a stage of a decision N atoms from there on
//!
//! Formulas and variables are written by numbers, except in a source.
#![tactic(auto)]

mod answers;
mod given;
mod reading;
mod rows;

use hs_io::{Files, RealFiles};
use std::io;
use std::io::Write;
use std::process::ExitCode;

fn main(rt: HostRuntime) -> ExitCode {
    let alloc = rt.alloc();
    let Ok(bytes) = RealFiles::new(&rt).fetch(alloc, "rows", 1 << 20) else {
        return ExitCode::from(4);
    };
    let Ok(text) = rows::table(alloc, &bytes) else {
        return ExitCode::from(6);
    };
    match io::writer(&rt).write_all(text.as_bytes()) {
        Ok(()) => ExitCode::from(0),
        Err(_) => ExitCode::from(5),
    }
}
