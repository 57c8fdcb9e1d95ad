ghost use Rattle.std.specs.Prelude.{◌≡◌, ◌↔◌, IfOk, IsTrue};

use crate::places::same_at;
use hs_core::{At, PRule};
use hs_goal::{ERule, Goal};
use hs_heap::Formula;
use hs_pure::NoMemory;
use std::alloc::Global;

/// What a node says. Predicates are numbered from 1.
#[derive(Drop)]
pub enum Judgement {
    /// The invariant of a predicate holds.
    Shown(u32),
    /// A goal holds with a residue.
    Entails(Goal, Formula),
    /// Runs from a state at a point are safe.
    Runs(At),
}

impl Judgement {
    /// An equal judgement.
    pub fn copy(&self, alloc: Global) -> Result<Judgement, NoMemory>
        ensures same { IfOk result (λ j. j ≡ self.now) }
    {
        match self {
            Judgement::Shown(pred) => Ok(Judgement::Shown(*pred)),
            Judgement::Entails(goal, residue) => {
                let goal = goal.copy(alloc)?;
                Ok(Judgement::Entails(goal, residue.copy(alloc)?))
            }
            Judgement::Runs(at) => Ok(Judgement::Runs(at.copy(alloc)?)),
        }
    }

    /// Whether both are one judgement. It takes no memory.
    pub fn same(&self, other: &Judgement) -> bool
        ensures exact { IsTrue result ↔ (self.now ≡ other.now) }
    {
        match (self, other) {
            (Judgement::Shown(a), Judgement::Shown(b)) => a == b,
            (Judgement::Entails(g, r), Judgement::Entails(h, s)) => g.same(h) && r.same(s),
            (Judgement::Runs(a), Judgement::Runs(b)) => same_at(a, b),
            _ => false,
        }
    }
}

/// The rule of a node.
#[derive(Drop)]
pub enum Rule {
    /// That of invariants.
    Inv,
    /// One of entailments.
    E(ERule),
    /// One of programs.
    P(PRule),
}

impl Rule {
    /// An equal rule.
    pub fn copy(&self, alloc: Global) -> Result<Rule, NoMemory>
        ensures same { IfOk result (λ r. r ≡ self.now) }
    {
        match self {
            Rule::Inv => Ok(Rule::Inv),
            Rule::E(rule) => Ok(Rule::E(rule.copy(alloc)?)),
            Rule::P(rule) => Ok(Rule::P(*rule)),
        }
    }
}
