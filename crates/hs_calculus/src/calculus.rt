//! What a calculus is.
ghost use Rattle.std.specs.Prelude.{◌≡◌, IfOk, IfErr, []};
ghost use Rattle.std.specs.List.{Contains};
ghost use Rattle.hs_calculus.specs.Calculus.{Calculus as TheCalculus, Falls};
ghost use Rattle.hs_calculus.specs.Search.{MayJoin};
ghost use Rattle.hs_calculus.specs.Progress.{Halts};
ghost use Rattle.hs_calculus.specs.Steps.{ArePremises};
ghost use Rattle.hs_calculus.specs.declared.calculus.Stop.TheVariants.{Memory};

use hs_text::NoMemory;
use std::alloc::{AllocError, AllocFailed, Global};

/// Why a search stops before its end.
#[derive(Debug, Drop)]
pub enum Stop<Q> {
    /// The tree has more places than are allowed.
    Goals,
    /// This question has no answer.
    Spent(Q),
    /// There was no memory.
    Memory,
}

impl<Q> From<NoMemory> for Stop<Q> {
    ghost from_gives = { λ _ stop. stop ≡ Memory };

    fn from(_: NoMemory) -> Self {
        Stop::Memory
    }
}

impl<Q> From<AllocError> for Stop<Q> {
    ghost from_gives = { λ _ stop. stop ≡ Memory };

    fn from(_: AllocError) -> Self {
        Stop::Memory
    }
}

impl<Q, T: Drop> From<AllocFailed<T>> for Stop<Q> {
    ghost from_gives = { λ _ stop. stop ≡ Memory };

    fn from(_: AllocFailed<T>) -> Self {
        Stop::Memory
    }
}

/// What a rule leaves to prove at a goal.
#[derive(Debug, Drop)]
pub enum Premises<G, O> {
    /// Its question is true, or it has none; these are its subgoals, in order.
    Goals(Vec<G>),
    /// Its question is false, as this shows.
    Refuted(O),
}

/// Goals and the rules that may be tried at each.
pub trait Calculus {
    type Goal: Drop;

    type Rule: Drop;

    type Proof: Drop;

    type Question: Drop;

    type Obligation: Drop;

    ghost calculus: { Self → TheCalculus Self.Goal Self.Rule Self.Proof };

    /// The goals of which the calculus may be asked.
    ghost is_goal: { Self → Self.Goal → Type 0 };

    /// A question that is asked at a goal has no answer.
    ghost is_spent: { Self → Self.Goal → Self.Question → Type 0 };

    /// Why there is no choice at a goal.
    ghost is_stuck: { Self → Self.Goal → Self.Obligation → Type 0 };

    /// The question of a rule is false at a goal.
    ghost is_refuted: { Self → Self.Goal → Self.Rule → Self.Obligation → Type 0 };

    /// The rules that may be tried at a goal, in order. It stops where a question has no answer, or by want of memory.
    fn choices(
        &self,
        alloc: Global,
        goal: &Self::Goal,
    ) -> Result<Vec<Self::Rule>, Stop<Self::Question>>
        requires goal { is_goal self.now goal.now }
        ensures ok { IfOk result (λ rules. rules.items ≡ (calculus self.now).choices goal.now) }
        ensures err { IfErr result (Halts (is_spent self.now) goal.now) };

    /// Whether a rule uses up one of the rank.
    fn is_paid(&self, rule: &Self::Rule) -> bool
        ensures { result ≡ (calculus self.now).is_paid rule.now };

    /// Why there is no choice at a goal.
    fn stuck(&self, alloc: Global, goal: &Self::Goal) -> Result<Self::Obligation, NoMemory>
        requires goal { is_goal self.now goal.now }
        requires none { (calculus self.now).choices goal.now ≡ [] }
        ensures { IfOk result (is_stuck self.now goal.now) };

    /// The subgoals of a choice, or what shows that its question is false. It stops where a question has no answer, or
    /// by want of memory.
    fn premises(
        &self,
        alloc: Global,
        goal: &Self::Goal,
        rule: &Self::Rule,
    ) -> Result<Premises<Self::Goal, Self::Obligation>, Stop<Self::Question>>
        requires goal { is_goal self.now goal.now }
        requires choice { Contains ((calculus self.now).choices goal.now) rule.now }
        ensures ok { IfOk result (ArePremises (calculus self.now) (is_goal self.now) (is_refuted self.now) goal.now rule.now) }
        ensures err { IfErr result (Halts (is_spent self.now) goal.now) };

    /// The derivation by a choice, from one for each subgoal.
    fn join(
        &self,
        alloc: Global,
        goal: Self::Goal,
        rule: Self::Rule,
        parts: Vec<Self::Proof>,
    ) -> Result<Self::Proof, NoMemory>
        requires { MayJoin (calculus self.now) (is_goal self.now) goal rule parts.items }
        ensures { IfOk result (λ proof. proof ≡ (calculus self.now).join goal rule parts.items) };

    /// An equal goal.
    fn copy_goal(&self, alloc: Global, goal: &Self::Goal) -> Result<Self::Goal, NoMemory>
        requires { is_goal self.now goal.now }
        ensures { IfOk result (λ copy. copy ≡ goal.now) };

    /// An equal rule.
    fn copy_rule(&self, alloc: Global, rule: &Self::Rule) -> Result<Self::Rule, NoMemory>
        ensures { IfOk result (λ copy. copy ≡ rule.now) };

    /// An equal derivation.
    fn copy(&self, alloc: Global, proof: &Self::Proof) -> Result<Self::Proof, NoMemory>
        ensures { IfOk result (λ copy. copy ≡ proof.now) };

    /// The tree of a goal is finite at each rank.
    ghost falls: { (c : Self) → Falls (calculus c) };
}
