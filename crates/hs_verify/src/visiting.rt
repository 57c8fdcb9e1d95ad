//! What is done at a state, and what it leaves to do.

ghost use Rattle.std.specs.Prelude.{◌≡◌, ◌++◌, length, IfOk, OnOk};
ghost use Rattle.hs_heap.specs.Sound.{IsSound};
ghost use Rattle.hs_core.specs.Set.{IsSet};
ghost use Rattle.hs_core.specs.Sound.{IsSoundProgram};
ghost use Rattle.hs_proof_nodes.specs.Right.{AreRightNodes};
ghost use Rattle.hs_search.specs.Answer.{LimitsFit};
ghost use Rattle.hs_verify.specs.Asked.{IsTaken, residue_by};
ghost use Rattle.hs_verify.specs.Visited.{IsFit, IsVisited, nodes_by, last_by};

use crate::finding::{Found, find};
use crate::task::Taken;
use hs_core::{At, PRule, Program};
use hs_erule::Proof;
use hs_goal::{Cause, Limits};
use hs_heap::{Defs, Formula};
use hs_node::Node;
use hs_program_fits::{premises_are_prepared, premises_fit};
use hs_proof_nodes::{proofs_are_right_nodes, push_proof};
use hs_proofs_fit::proofs_are_formed;
use hs_prule::next;
use hs_pure::NoMemory;
use hs_sides::RuleError;
use hs_steps::{proofs_are_fresh, residue_shown};
use sqlite_items::Items;
use std::alloc::Global;

// What came of a state.
#[derive(Drop)]
pub enum Visited {
    // The rule that is taken, and its further premises.
    Goes(Taken, Items<At>),
    // Why no goal that can be asked has a proof.
    Stuck(Items<Cause>),
    // New numbers pass their bound.
    Crowded,
}

// The residue that a proof shows, if there is one.
fn residue_of(alloc: Global, proof: &Option<Proof>) -> Result<Option<Formula>, NoMemory>
    ensures { IfOk result (λ f. f ≡ residue_by proof.now) }
{
    match proof {
        None => Ok(None),
        Some(proof) => Ok(Some(residue_shown(alloc, proof)?)),
    }
}

// Adds the nodes of a proof, if there is one, and answers the number of the last.
fn push_goal(
    alloc: Global,
    nodes: &mut Items<Node>,
    proof: Option<Proof>,
) -> Result<Option<u32>, NoMemory>
    ensures nodes { OnOk result (nodes.new ≡ nodes.old ++ nodes_by (length nodes.old) proof) }
    ensures last { IfOk result (λ n. n ≡ last_by (length nodes.new) proof) }
{
    match proof {
        None => Ok(None),
        Some(proof) => Ok(Some(push_proof(alloc, nodes, proof)?)),
    }
}

// Takes a rule at a state, with the proof of its goal.
fn take(
    alloc: Global,
    program: &Program,
    defs: &Defs,
    limits: &Limits,
    at: &At,
    nodes: &mut Items<Node>,
    rule: PRule,
    proof: Option<Proof>,
) -> Result<Visited, NoMemory>
    requires sound { IsSound defs.now }
    requires program { IsSoundProgram defs.now program.now }
    requires fit { IsFit defs.now program.now at.now }
    requires taken { IsTaken defs.now limits.now program.now at.now rule proof }
    requires right { AreRightNodes defs.now program.now nodes.old }
    ensures { IfOk result (IsVisited defs.now program.now limits.now at.now nodes.old nodes.new) }
{
    premises_fit();
    premises_are_prepared();
    proofs_are_formed();
    proofs_are_fresh();
    proofs_are_right_nodes();
    let residue = residue_of(alloc, &proof)?;
    match next(alloc, program, defs, at, &rule, residue.as_ref()) {
        Ok(premises) => {
            let further = premises.len();
            let goal = push_goal(alloc, nodes, proof)?;
            Ok(Visited::Goes(
                Taken {
                    rule,
                    goal,
                    further,
                },
                premises,
            ))
        }
        Err(RuleError::NotApplicable) => Ok(Visited::Crowded),
        Err(RuleError::Memory) => Err(NoMemory),
    }
}

// Finds the rule of a state and takes it.
pub fn visit(
    alloc: Global,
    program: &Program,
    defs: &Defs,
    limits: &Limits,
    at: &At,
    nodes: &mut Items<Node>,
) -> Result<Visited, NoMemory>
    requires sound { IsSound defs.now }
    requires program { IsSoundProgram defs.now program.now }
    requires set { IsSet program.now }
    requires limits { LimitsFit limits.now }
    requires fit { IsFit defs.now program.now at.now }
    requires right { AreRightNodes defs.now program.now nodes.old }
    ensures { IfOk result (IsVisited defs.now program.now limits.now at.now nodes.old nodes.new) }
{
    match find(alloc, program, defs, at, limits)? {
        Found::Taken(rule, proof) => take(alloc, program, defs, limits, at, nodes, rule, proof),
        Found::Stuck(causes) => Ok(Visited::Stuck(causes)),
        Found::Crowded => Ok(Visited::Crowded),
    }
}
