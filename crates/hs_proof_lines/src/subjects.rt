//! One claim: what it is about is proved, or why it is not, and its nodes and its line are written.

ghost use Rattle.std.specs.Prelude.{◌≡◌, ◌∷◌, [], IfOk, OnOk, None};
ghost use Rattle.hs_claims.specs.Claims.{goal_of};
ghost use Rattle.hs_core.specs.Set.{IsSet};
ghost use Rattle.hs_core.specs.Sound.{IsSoundProgram};
ghost use Rattle.hs_goal.specs.Shape.{GoalFits};
ghost use Rattle.hs_heap.specs.Sound.{IsSound};
ghost use Rattle.hs_pred_lines.specs.Lines.{IsTold};
ghost use Rattle.hs_program_rules.specs.Laws.{PairExists};
ghost use Rattle.hs_search.specs.Answer.{LimitsFit};
ghost use Rattle.hs_proof_lines.specs.Growing.{Adds, IsFound};
ghost use Rattle.hs_proof_lines.specs.Proved.{Subject};

use crate::causes::{barred_text, cause_text};
use crate::moving::{push_invariant, push_moved};
use crate::written::{Outcome, Written};
use hs_causes::why;
use hs_claims::goal_of;
use hs_core::Program;
use hs_goal::Limits;
use hs_heap::PredDef;
use hs_norm::{Entailment, Names, PairTree, Resolved};
use hs_print::Line;
use hs_proof_nodes::push_proof;
use hs_pure::NoMemory;
use hs_search::{SleekAnswer, prove};
use hs_text::Text;
use hs_verify::verify;
use std::alloc::Global;

/// What claims are proved over. `unshown` is the first predicate whose invariant is not shown.
#[derive(Clone, Copy)]
pub struct Prover<'a> {
    pub resolved: &'a Resolved,
    pub program: &'a Program,
    pub limits: &'a Limits,
    pub unshown: &'a Option<Text>,
}

impl Prover<'_> {
    /// Writes the invariant of a predicate, of which its line tells.
    pub fn write_invariant(
        &self,
        alloc: Global,
        written: &mut Written,
        number: u32,
        pred: &PredDef,
        names: &Names,
        line: &Line,
    ) -> Result<(), NoMemory>
        requires told { IsTold self.now.resolved.now.defs pred.now names.now self.now.limits.now.atoms line.now }
        ensures { OnOk result (Adds self.now.resolved.now.defs self.now.program.now self.now.limits.now self.now.unshown.now (Subject.invariant number pred.now names.now ∷ []) written.old written.new) }
    {
        let why = self.invariant_why(alloc, pred, names, line)?;
        match why {
            None => {
                let node = push_invariant(alloc, &mut written.nodes, number)?;
                written.push_shown(node)
            }
            Some(why) => written.push_open(cause_text(alloc, &why)?),
        }
    }

    // Searches for proofs of an entailment, and writes it.
    fn search(&self, alloc: Global, written: &mut Written, e: &Entailment) -> Result<(), NoMemory>
        requires sound { IsSound self.now.resolved.now.defs }
        requires fits { GoalFits self.now.resolved.now.defs (goal_of e.now) }
        requires limits { LimitsFit self.now.limits.now }
        requires shown { self.now.unshown.now ≡ None }
        ensures { OnOk result (Adds self.now.resolved.now.defs self.now.program.now self.now.limits.now self.now.unshown.now (Subject.entailment e.now ∷ []) written.old written.new) }
    {
        let defs = &self.resolved.defs;
        let goal = goal_of(alloc, e)?;
        let answer = prove(alloc, defs, &goal, self.limits)?;
        match answer {
            SleekAnswer::Valid(mut proofs) => {
                let proof = proofs.remove(0);
                let node = push_proof(alloc, &mut written.nodes, proof)?;
                written.push_shown(node)
            }
            SleekAnswer::Unknown(cause) => {
                let why = why(alloc, defs, &e.names, e.next, self.limits, &cause)?;
                written.push_open(cause_text(alloc, &why)?)
            }
        }
    }

    /// Writes an entailment.
    pub fn write_entailment(
        &self,
        alloc: Global,
        written: &mut Written,
        e: &Entailment,
    ) -> Result<(), NoMemory>
        requires sound { IsSound self.now.resolved.now.defs }
        requires fits { GoalFits self.now.resolved.now.defs (goal_of e.now) }
        requires limits { LimitsFit self.now.limits.now }
        ensures { OnOk result (Adds self.now.resolved.now.defs self.now.program.now self.now.limits.now self.now.unshown.now (Subject.entailment e.now ∷ []) written.old written.new) }
    {
        match self.unshown {
            Some(pred) => written.push_open(barred_text(alloc, pred)?),
            None => self.search(alloc, written, e),
        }
    }

    // What is found of a pair of a method, by their numbers.
    fn verified(&self, alloc: Global, m: u32, i: u32, pair: &PairTree) -> Result<Outcome, NoMemory>
        requires sound { IsSound self.now.resolved.now.defs }
        requires program { IsSoundProgram self.now.resolved.now.defs self.now.program.now }
        requires set { IsSet self.now.program.now }
        requires there { PairExists self.now.program.now m i }
        requires limits { LimitsFit self.now.limits.now }
        ensures { IfOk result (IsFound self.now.resolved.now.defs self.now.program.now self.now.limits.now m i pair.now) }
    {
        let defs = &self.resolved.defs;
        let answer = verify(alloc, self.program, defs, m, i, self.limits)?;
        self.outcome(alloc, pair, answer)
    }

    // Writes a pair of a method, by their numbers, by what is found of it.
    fn write_found(
        &self,
        alloc: Global,
        written: &mut Written,
        m: u32,
        i: u32,
        pair: &PairTree,
    ) -> Result<(), NoMemory>
        requires sound { IsSound self.now.resolved.now.defs }
        requires program { IsSoundProgram self.now.resolved.now.defs self.now.program.now }
        requires set { IsSet self.now.program.now }
        requires there { PairExists self.now.program.now m i }
        requires limits { LimitsFit self.now.limits.now }
        requires shown { self.now.unshown.now ≡ None }
        ensures { OnOk result (Adds self.now.resolved.now.defs self.now.program.now self.now.limits.now self.now.unshown.now (Subject.pair m i pair.now ∷ []) written.old written.new) }
    {
        let found = self.verified(alloc, m, i, pair)?;
        match found {
            Outcome::Proved(own) => {
                let node = push_moved(alloc, &mut written.nodes, own)?;
                written.push_shown(node)
            }
            Outcome::Open(cause) => written.push_open(cause),
        }
    }

    /// Writes a pair of a method, by their numbers.
    pub fn write_pair(
        &self,
        alloc: Global,
        written: &mut Written,
        m: u32,
        i: u32,
        pair: &PairTree,
    ) -> Result<(), NoMemory>
        requires sound { IsSound self.now.resolved.now.defs }
        requires program { IsSoundProgram self.now.resolved.now.defs self.now.program.now }
        requires set { IsSet self.now.program.now }
        requires there { PairExists self.now.program.now m i }
        requires limits { LimitsFit self.now.limits.now }
        ensures { OnOk result (Adds self.now.resolved.now.defs self.now.program.now self.now.limits.now self.now.unshown.now (Subject.pair m i pair.now ∷ []) written.old written.new) }
    {
        match self.unshown {
            Some(pred) => written.push_open(barred_text(alloc, pred)?),
            None => self.write_found(alloc, written, m, i, pair),
        }
    }
}
