//! A line for each pair.

ghost use Rattle.std.specs.Prelude.{◌≡◌, ◌∷◌, [], length, IfOk};
ghost use Rattle.std.specs.List.{AllZip};
ghost use Rattle.hs_heap.specs.Sound.{IsSound};
ghost use Rattle.hs_core.specs.Machine.{method_of};
ghost use Rattle.hs_core.specs.Set.{IsSet};
ghost use Rattle.hs_core.specs.Sound.{IsUpTo, IsSoundProgram};
ghost use Rattle.hs_program_rules.specs.Laws.{PairExists};
ghost use Rattle.hs_search.specs.Answer.{LimitsFit};
ghost use Rattle.hs_lower_sound.specs.Laws.{MethodIsKept};
ghost use Rattle.hs_hip_lines.specs.Lines.{line_of, IsVerdict, IsPairLine, AreLinesOf, ArePairLines, pair_count};

use crate::causes::tried;
use crate::numbers::number_of;
use hs_core::Program;
use hs_goal::Limits;
use hs_heap::Defs;
use hs_norm::{MethodTree, PairTree};
use hs_print::{Line, Tried};
use hs_pure::NoMemory;
use hs_text::Text;
use hs_verify::{HipAnswer, verify};
use sqlite_items::Items;
use std::alloc::Global;

fn one(alloc: Global, tried: Tried) -> Result<Items<Tried>, NoMemory>
    ensures { IfOk result (λ all. all ≡ tried ∷ []) }
{
    Ok(Items::from_vec(vec![in alloc; tried]?))
}

// The line that an answer prints, for the pair of this number of a method with this name.
fn answer_line(
    alloc: Global,
    defs: &Defs,
    program: &Program,
    name: &Text,
    i: u32,
    p: &PairTree,
    limits: &Limits,
    answer: &HipAnswer,
) -> Result<Line, NoMemory>
    ensures { IfOk result (λ line. line ≡ line_of defs.now program.now limits.now name.now i p.now answer.now) }
{
    let name = name.copy(alloc)?;
    match answer {
        HipAnswer::Accepted(_) => Ok(Line::Accepted(name, i)),
        HipAnswer::Unknown(at, causes) => {
            let all = tried(alloc, defs, program, p, limits, at, causes.as_slice())?;
            Ok(Line::Rejected(name, i, at.point, all))
        }
        HipAnswer::States(at) => {
            let only = one(alloc, Tried::States(limits.goals))?;
            Ok(Line::Rejected(name, i, at.point, only))
        }
        HipAnswer::Numbers(at) => {
            let only = one(alloc, Tried::Numbers)?;
            Ok(Line::Rejected(name, i, at.point, only))
        }
    }
}

// The verdict on a pair of a method, by their numbers.
fn verdict(
    alloc: Global,
    defs: &Defs,
    program: &Program,
    m: u32,
    name: &Text,
    i: u32,
    p: &PairTree,
    limits: &Limits,
) -> Result<Line, NoMemory>
    requires sound { IsSound defs.now }
    requires program { IsSoundProgram defs.now program.now }
    requires set { IsSet program.now }
    requires there { PairExists program.now m i }
    requires limits { LimitsFit limits.now }
    ensures { IfOk result (IsVerdict defs.now program.now limits.now m name.now i p.now) }
{
    let answer = verify(alloc, program, defs, m, i, limits)?;
    let line = answer_line(alloc, defs, program, name, i, p, limits, &answer)?;
    Ok(line)
}

// The line of a pair of a method, by their numbers.
fn pair_line(
    alloc: Global,
    defs: &Defs,
    program: &Program,
    unshown: &Option<Text>,
    m: u32,
    name: &Text,
    i: u32,
    p: &PairTree,
    limits: &Limits,
) -> Result<Line, NoMemory>
    requires sound { IsSound defs.now }
    requires program { IsSoundProgram defs.now program.now }
    requires set { IsSet program.now }
    requires there { PairExists program.now m i }
    requires limits { LimitsFit limits.now }
    ensures { IfOk result (IsPairLine defs.now program.now limits.now unshown.now m name.now i p.now) }
{
    match unshown {
        Some(pred) => Ok(Line::PairInvariant(name.copy(alloc)?, i, pred.copy(alloc)?)),
        None => verdict(alloc, defs, program, m, name, i, p, limits),
    }
}

// The lines of the pairs of a method, by its number.
fn method_lines(
    alloc: Global,
    defs: &Defs,
    program: &Program,
    unshown: &Option<Text>,
    m: u32,
    method: &MethodTree,
    limits: &Limits,
) -> Result<Vec<Line>, NoMemory>
    requires sound { IsSound defs.now }
    requires program { IsSoundProgram defs.now program.now }
    requires set { IsSet program.now }
    requires there { IsUpTo (length program.now.methods) m }
    requires pairs { length (method_of program.now m).pairs ≡ length method.now.pairs }
    requires limits { LimitsFit limits.now }
    ensures { IfOk result (λ lines. AreLinesOf defs.now program.now limits.now unshown.now m method.now.name 1 method.now.pairs lines.items) }
{
    let _ = number_of(method.pairs.len())?;
    let mut lines = Vec::new(alloc);
    let mut i = 0;
    for p in method.pairs.as_slice() {
        i += 1;
        let line = pair_line(alloc, defs, program, unshown, m, &method.name, i, p, limits)?;
        lines.push(line)?;
    }
    Ok(lines)
}

/// A line for each pair, by method and pair, by numbers from 1. The definitions are sound, and the program is sound and
/// set, with the methods and pairs of these sources in order. The limits are in their ranges. Where a predicate's
/// invariant is `unshown`, each line says so. `NoMemory` comes where there is none, and where a count is 2^32 or more.
pub fn pair_lines(
    alloc: Global,
    defs: &Defs,
    program: &Program,
    methods: &[MethodTree],
    unshown: &Option<Text>,
    limits: &Limits,
) -> Result<Vec<Line>, NoMemory>
    requires sound { IsSound defs.now }
    requires program { IsSoundProgram defs.now program.now }
    requires set { IsSet program.now }
    requires kept { AllZip MethodIsKept methods.now program.now.methods }
    requires limits { LimitsFit limits.now }
    // What each line says is true.
    ensures lines { IfOk result (λ lines. ArePairLines defs.now program.now limits.now unshown.now methods.now lines.items) }
    ensures few { IfOk result (λ lines. length lines.items ≡ pair_count methods.now) }
{
    let _ = number_of(methods.len())?;
    let mut lines = Vec::new(alloc);
    let mut m = 0;
    for method in methods {
        m += 1;
        let mut more = method_lines(alloc, defs, program, unshown, m, method, limits)?;
        lines.append(&mut more)?;
    }
    Ok(lines)
}
