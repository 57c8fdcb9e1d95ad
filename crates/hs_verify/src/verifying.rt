//! The verifier.

ghost use Rattle.std.specs.Prelude.{◌≡◌, ◌++◌, map, reverse, IfOk, OnOk};
ghost use Rattle.hs_heap.specs.Sound.{IsSound};
ghost use Rattle.hs_core.specs.Set.{IsSet};
ghost use Rattle.hs_core.specs.Sound.{IsSoundProgram};
ghost use Rattle.hs_program_rules.specs.Laws.{PairExists};
ghost use Rattle.hs_program_rules.specs.States.{entry};
ghost use Rattle.hs_search.specs.Answer.{LimitsFit};
ghost use Rattle.hs_verify.specs.Answer.{IsAnswer};
ghost use Rattle.hs_proof_nodes.specs.Right.{AreRightNodes};
ghost use Rattle.hs_verify.specs.Visited.{IsFit, IsNext, to_visit};

use crate::answer::HipAnswer;
use crate::concluding::conclude;
use crate::task::Task;
use crate::visiting::{Visited, visit};
use hs_core::{At, Program};
use hs_goal::Limits;
use hs_heap::Defs;
use hs_node::{Derivation, Node};
use hs_program_fits::entries_are_prepared;
use hs_program_rules::entries_fit;
use hs_prule::entry;
use hs_pure::NoMemory;
use sqlite_items::Items;
use std::alloc::Global;

// Lets the states be visited next, the first of them first.
fn push_visits(tasks: &mut Items<Task>, mut states: Items<At>) -> Result<(), NoMemory>
    ensures { OnOk result (tasks.new ≡ tasks.old ++ map to_visit (reverse states)) }
{
    while let Some(at) = states.pop() {
        tasks.push(Task { at, taken: None })?;
    }
    Ok(())
}

// Visits a state: lets its premises be visited and then itself be concluded, or answers.
fn visit_next(
    alloc: Global,
    program: &Program,
    defs: &Defs,
    limits: &Limits,
    at: At,
    nodes: &mut Items<Node>,
    tasks: &mut Items<Task>,
) -> Result<Option<HipAnswer>, NoMemory>
    requires sound { IsSound defs.now }
    requires program { IsSoundProgram defs.now program.now }
    requires set { IsSet program.now }
    requires limits { LimitsFit limits.now }
    requires fit { IsFit defs.now program.now at }
    requires right { AreRightNodes defs.now program.now nodes.old }
    ensures { IfOk result (IsNext defs.now program.now limits.now at nodes.old nodes.new tasks.old tasks.new) }
{
    match visit(alloc, program, defs, limits, &at, nodes)? {
        Visited::Goes(taken, premises) => {
            tasks.push(Task {
                at,
                taken: Some(taken),
            })?;
            push_visits(tasks, premises)?;
            Ok(None)
        }
        Visited::Stuck(causes) => Ok(Some(HipAnswer::Unknown(at, causes))),
        Visited::Crowded => Ok(Some(HipAnswer::Numbers(at))),
    }
}

/// The answer to a pair of a sound set program, by numbers from 1: the tree from its start, by the rule of each state to
/// its further premises, in order. At a call the rule is that of the first pair whose precondition is proved. The goal of
/// a rule is searched for within the limits, and the first derivation is taken.
///
/// `Unknown` comes where a goal has no derivation that was found; `States` where as many states as `goals` were taken
/// before; `Numbers` where the `next` of a goal or of a state would pass 2^30. `NoMemory` comes where there is none, and
/// where there would be more than 2^32 - 1 nodes.
pub fn verify(
    alloc: Global,
    program: &Program,
    defs: &Defs,
    method: u32,
    pair: u32,
    limits: &Limits,
) -> Result<HipAnswer, NoMemory>
    requires sound { IsSound defs.now }
    requires program { IsSoundProgram defs.now program.now }
    requires set { IsSet program.now }
    requires there { PairExists program.now method pair }
    requires limits { LimitsFit limits.now }
    ensures answer { IfOk result (IsAnswer defs.now program.now limits.now (entry program.now method pair)) }
{
    entries_fit();
    entries_are_prepared();
    let mut nodes = Items::new(alloc);
    let mut ends = Items::new(alloc);
    let mut tasks = Items::new(alloc);
    tasks.push(Task {
        at: entry(alloc, program, method, pair)?,
        taken: None,
    })?;
    let mut states = 0;
    while let Some(task) = tasks.pop() {
        let at = task.at;
        if let Some(taken) = task.taken {
            conclude(alloc, &mut nodes, &mut ends, at, taken)?;
            continue;
        }
        if states == limits.goals {
            return Ok(HipAnswer::States(at));
        }
        states += 1;
        let answer = visit_next(alloc, program, defs, limits, at, &mut nodes, &mut tasks)?;
        if let Some(answer) = answer {
            return Ok(answer);
        }
    }
    Ok(HipAnswer::Accepted(Derivation {
        nodes,
        claims: Items::new(alloc),
    }))
}
