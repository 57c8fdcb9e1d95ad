//! The causes at a state, with what was tried there.

ghost use Rattle.std.specs.Prelude.{◌≡◌, IfOk};
ghost use Rattle.std.specs.Option.{option_copied};
ghost use Rattle.hs_program_rules.specs.States.{instruction_at};
ghost use Rattle.hs_hip_lines.specs.Causes.{tried_at};
ghost use Rattle.hs_hip_lines.specs.Causes as spec;

use crate::numbers::number_of;
use hs_causes::why;
use hs_core::{At, Instr, Program};
use hs_goal::{Cause, Limits};
use hs_heap::Defs;
use hs_norm::PairTree;
use hs_print::{Tried, Why};
use hs_pure::NoMemory;
use sqlite_items::Items;
use std::alloc::Global;

// The instruction that is next at a state, if there is one.
fn instruction<'a>(program: &'a Program, at: &At) -> Option<&'a Instr>
    ensures { option_copied result ≡ instruction_at program.now at.now }
{
    if at.method == 0 {
        return None;
    }
    match program.methods.get(at.method as usize - 1) {
        Some(method) => method.code.get(at.point as usize),
        None => None,
    }
}

// A cause with what was tried: at a call, the pair of this number.
fn tried_by(instr: Option<&Instr>, number: u32, why: Why) -> Tried
    ensures { result ≡ spec.tried_by (option_copied instr.entry) number why }
{
    match instr {
        Some(Instr::Get(_, _, _, _)) => Tried::Get(why),
        Some(Instr::Set(_, _, _, _)) => Tried::Set(why),
        Some(Instr::Return(_)) => Tried::Return(why),
        _ => Tried::Pair(number, why),
    }
}

/// The printed causes at a state of a pair, with what was tried. `NoMemory` comes where there is none.
pub fn tried(
    alloc: Global,
    defs: &Defs,
    program: &Program,
    p: &PairTree,
    limits: &Limits,
    at: &At,
    causes: &[Cause],
) -> Result<Items<Tried>, NoMemory>
    ensures { IfOk result (λ all. all ≡ tried_at defs.now program.now p.now.names p.now.next limits.now at.now causes.now) }
{
    let _ = number_of(causes.len())?;
    let instr = instruction(program, at);
    let mut all = Items::new(alloc);
    let mut number = 0;
    for cause in causes {
        number += 1;
        let shown = why(alloc, defs, &p.names, p.next, limits, cause)?;
        all.push(tried_by(instr, number, shown))?;
    }
    Ok(all)
}
