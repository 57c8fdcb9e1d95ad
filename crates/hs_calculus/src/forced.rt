//! Forced steps: places with one choice, which leads to one subgoal, are passed in a loop.
ghost use Rattle.std.specs.Prelude.{◌≡◌, ◌∷◌, [], IfOk, IfErr, MatchResult};
ghost use Rattle.std.specs.List.{Contains};
ghost use Rattle.hs_calculus.specs.Search.{places, rank_after};
ghost use Rattle.hs_calculus.specs.Progress.{Stops, Halts};
ghost use Rattle.hs_calculus.specs.Steps.{IsBelow, IsNext, IsDescent};

use crate::budget::Budget;
use crate::calculus::{Calculus, Premises, Stop};
use crate::place::Place;
use std::alloc::Global;

/// What is below a place by a choice.
#[derive(Debug, Drop)]
pub enum Below<G, O> {
    /// The choice is paid, and no rank is left.
    Cut,
    /// Its question is false.
    Refuted(O),
    /// Its subgoals, and the rank that is left for them.
    Goals(Vec<G>, u32),
}

/// A place from which no forced step leads.
#[derive(Debug, Drop)]
pub enum Fork<G, R, O> {
    /// There is no choice.
    Stuck(O),
    /// The choices, and what is below the first of them.
    Choices(Vec<R>, Below<G, O>),
}

/// A step from a place.
#[derive(Debug, Drop)]
pub enum Next<G, R, O> {
    /// The one choice, and the place of its one subgoal.
    Forced(R, Place<G>),
    /// There is no forced step.
    Fork(Fork<G, R, O>),
}

/// Forced steps down to a place from which none leads.
#[derive(Debug, Drop)]
pub struct Descent<G, R, O> {
    /// The goals that were passed, with their choices.
    pub trail: Vec<(G, R)>,
    /// The place to which they lead.
    pub place: Place<G>,
    /// What stands there.
    pub fork: Fork<G, R, O>,
}

/// What is left of the rank after a rule.
fn left_after(is_paid: bool, rank: u32) -> Option<u32>
    ensures { result ≡ rank_after is_paid rank }
{
    if is_paid {
        rank.checked_sub(1)
    } else {
        Some(rank)
    }
}

/// What is below a place by a choice.
pub fn open<C: Calculus>(
    c: &C,
    alloc: Global,
    place: &Place<C::Goal>,
    rule: &C::Rule,
) -> Result<Below<C::Goal, C::Obligation>, Stop<C::Question>>
    requires goal { C.is_goal c.now place.now.goal }
    requires choice { Contains ((C.calculus c.now).choices place.now.goal) rule.now }
    ensures ok { IfOk result (IsBelow (C.calculus c.now) (C.is_goal c.now) (C.is_refuted c.now) place.now rule.now) }
    ensures err { IfErr result (Halts (C.is_spent c.now) place.now.goal) }
{
    let Some(left) = left_after(c.is_paid(rule), place.rank) else {
        return Ok(Below::Cut);
    };
    match c.premises(alloc, &place.goal, rule)? {
        Premises::Goals(goals) => Ok(Below::Goals(goals, left)),
        Premises::Refuted(o) => Ok(Below::Refuted(o)),
    }
}

/// The one choice and its one subgoal, or both lists where they are longer or shorter.
fn only<R: Drop, G: Drop>(
    mut choices: Vec<R>,
    mut goals: Vec<G>,
) -> Result<(R, G), (Vec<R>, Vec<G>)>
    ensures ok { IfOk result (λ one. (choices.items ≡ one.0 ∷ []) × (goals.items ≡ one.1 ∷ [])) }
    ensures err { IfErr result (λ both. (both.0.items ≡ choices.items) × (both.1.items ≡ goals.items)) }
{
    if choices.len() != 1 || goals.len() != 1 {
        return Err((choices, goals));
    }
    let goal = goals.remove(0);
    Ok((choices.remove(0), goal))
}

/// The step from a place.
fn step<C: Calculus>(
    c: &C,
    alloc: Global,
    place: &Place<C::Goal>,
) -> Result<Next<C::Goal, C::Rule, C::Obligation>, Stop<C::Question>>
    requires { C.is_goal c.now place.now.goal }
    ensures ok { IfOk result (IsNext (C.calculus c.now) (C.is_goal c.now) (C.is_stuck c.now) (C.is_refuted c.now) place.now) }
    ensures err { IfErr result (Halts (C.is_spent c.now) place.now.goal) }
{
    let choices = c.choices(alloc, &place.goal)?;
    let Some(first) = choices.first() else {
        return Ok(Next::Fork(Fork::Stuck(c.stuck(alloc, &place.goal)?)));
    };
    match open(c, alloc, place, first)? {
        Below::Goals(goals, rank) => match only(choices, goals) {
            Ok((rule, goal)) => Ok(Next::Forced(rule, Place { goal, rank })),
            Err((choices, goals)) => Ok(Next::Fork(Fork::Choices(
                choices,
                Below::Goals(goals, rank),
            ))),
        },
        below => Ok(Next::Fork(Fork::Choices(choices, below))),
    }
}

/// Forced steps from a place, as far as they lead.
pub fn descend<C: Calculus>(
    c: &C,
    alloc: Global,
    place: Place<C::Goal>,
    budget: &mut Budget,
) -> Result<Descent<C::Goal, C::Rule, C::Obligation>, Stop<C::Question>>
    requires { C.is_goal c.now place.goal }
    ensures { MatchResult result
        (IsDescent (C.calculus c.now) (C.is_goal c.now) (C.is_stuck c.now) (C.is_refuted c.now) place budget.old budget.new)
        (Stops (C.is_spent c.now) (places (C.calculus c.now) place.rank place.goal) budget.old.left) }
{
    let mut trail = Vec::new(alloc);
    let mut place = place;
    loop {
        let Some(left) = budget.left.checked_sub(1) else {
            return Err(Stop::Goals);
        };
        budget.left = left;
        match step(c, alloc, &place)? {
            Next::Forced(rule, to) => {
                trail.push((place.goal, rule))?;
                place = to;
            }
            Next::Fork(fork) => return Ok(Descent { trail, place, fork }),
        }
    }
}
