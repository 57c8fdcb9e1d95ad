//! The search, depth first.
ghost use Rattle.std.specs.Prelude.{◌≡◌, ◌<◌, ◌≤◌, ◌+◌, false, IfOk, IfErr, OnOk, IfSome, MatchResult, MatchOption, map, [], ◌∷◌};
ghost use Rattle.std.specs.List.{flat_map, Contains, AllByRecursion};
ghost use Rattle.hs_calculus.specs.Search.{derivations, places, rows_by, places_by, one_of_each};
ghost use Rattle.hs_calculus.specs.Progress.{Searched, Stops, Halts, uncounted};
ghost use Rattle.hs_calculus.specs.Steps.{IsBelow, IsBelowFirst};
ghost use Rattle.hs_calculus.specs.Blame.{IsBlame, BlamedBy, BlamedAmong, IsAnswer};

use crate::answer::{Answer, Bounds, Cause};
use crate::budget::State;
use crate::calculus::{Calculus, Stop};
use crate::extend::{extend_each, joined, one_row};
use crate::forced::{Below, Descent, Fork, descend, open};
use crate::join::{join_copies, join_rows, join_trail};
use crate::place::Place;
use hs_text::NoMemory;
use std::alloc::Global;

/// What a search found, and what is to blame where that is nothing.
#[derive(Debug, Drop)]
struct Found<T, O> {
    first: Vec<T>,
    blame: Option<O>,
}

/// The first derivations of a goal within bounds, in order, or why there is none.
///
/// `Goals` comes only where the tree of the goal has more places than `bounds.goals`, `Spent` only where a question at a
/// place of the tree has no answer, `Rank` only where no derivation has this rank, and a place of the tree wants more,
/// and `Failed` only where no derivation has any rank. `NoMemory` comes where there is none.
pub fn prove<C: Calculus>(
    c: &C,
    alloc: Global,
    goal: C::Goal,
    bounds: Bounds,
) -> Result<Answer<C::Proof, C::Question, C::Obligation>, NoMemory>
    requires wanted { 0 < bounds.wanted }
    requires goal { C.is_goal c.now goal }
    ensures answer { IfOk result (IsAnswer (C.calculus c.now) (C.is_spent c.now) (C.is_stuck c.now) (C.is_refuted c.now) bounds.rank bounds.goals bounds.wanted goal) }
{
    let mut state = State::new(alloc, bounds.goals);
    let place = Place {
        goal,
        rank: bounds.rank,
    };
    let found = match search(c, alloc, place, bounds.wanted as usize, &mut state) {
        Ok(found) => found,
        Err(Stop::Goals) => return Ok(Answer::Unknown(Cause::Goals)),
        Err(Stop::Spent(q)) => return Ok(Answer::Unknown(Cause::Spent(q))),
        Err(Stop::Memory) => return Err(NoMemory),
    };
    let Found { first, blame } = found;
    if !first.is_empty() {
        return Ok(Answer::Valid(first));
    }
    if state.budget.is_cut {
        return Ok(Answer::Unknown(Cause::Rank));
    }
    match blame {
        Some(obligation) => Ok(Answer::Unknown(Cause::Failed(obligation))),
        None => Ok(Answer::Unknown(Cause::Rank)),
    }
}

/// The first derivations at a place.
#[cycle(search)]
fn search<C: Calculus>(
    c: &C,
    alloc: Global,
    place: Place<C::Goal>,
    wanted: usize,
    state: &mut State,
) -> Result<Found<C::Proof, C::Obligation>, Stop<C::Question>>
    requires wanted { 0 < wanted }
    requires goal { C.is_goal c.now place.goal }
    ensures fewer { OnOk result (state.new.budget.left ≤ state.old.budget.left) }
    ensures answer { let all = C.calculus c.now in
        MatchResult result
        (λ found. Searched all (places all place.rank place.goal) (λ r. derivations all r place.goal) place.rank wanted state.old.budget state.new.budget found.first.items)
        (Stops (C.is_spent c.now) (places all place.rank place.goal) state.old.budget.left) }
    ensures blame { IfOk result (λ found. found.first.items ≡ [] → state.new.budget.is_cut ≡ false → MatchOption found.blame ⊥ (IsBlame (C.calculus c.now) (C.is_stuck c.now) (C.is_refuted c.now) place.goal)) }
{
    let Descent { trail, place, fork } = descend(c, alloc, place, &mut state.budget)?;
    match fork {
        Fork::Stuck(obligation) => Ok(Found {
            first: Vec::new(alloc),
            blame: Some(obligation),
        }),
        Fork::Choices(choices, below) => {
            let Found { first, blame } = search_choices(
                c, alloc, place, choices, below, wanted, state,
            )?;
            let first = join_trail(c, alloc, trail, first)?;
            Ok(Found { first, blame })
        }
    }
}

/// The first derivations at a place with these choices, which is counted.
#[cycle(search)]
fn search_choices<C: Calculus>(
    c: &C,
    alloc: Global,
    place: Place<C::Goal>,
    choices: Vec<C::Rule>,
    below: Below<C::Goal, C::Obligation>,
    wanted: usize,
    state: &mut State,
) -> Result<Found<C::Proof, C::Obligation>, Stop<C::Question>>
    requires wanted { 0 < wanted }
    requires goal { C.is_goal c.now place.goal }
    requires choices { choices.items ≡ (C.calculus c.now).choices place.goal }
    requires below { IsBelowFirst (C.calculus c.now) (C.is_goal c.now) (C.is_refuted c.now) place choices.items below }
    ensures fewer { OnOk result (state.new.budget.left ≤ state.old.budget.left) }
    ensures answer { let all = C.calculus c.now in
        MatchResult result
        (λ found. Searched all (places all place.rank place.goal) (λ r. derivations all r place.goal) place.rank wanted (uncounted state.old.budget) state.new.budget found.first.items)
        (Stops (C.is_spent c.now) (places all place.rank place.goal) (state.old.budget.left + 1)) }
    ensures blame { IfOk result (λ found. found.first.items ≡ [] → state.new.budget.is_cut ≡ false → MatchOption found.blame ⊥ (IsBlame (C.calculus c.now) (C.is_stuck c.now) (C.is_refuted c.now) place.goal)) }
{
    let mut found = Vec::new(alloc);
    let mut blame = None;
    let mut below = Some(below);
    let mut number: u32 = 0;
    for rule in choices {
        state.enter(number)?;
        let room = wanted - found.len();
        let rows = search_by(c, alloc, &place, &rule, below.take(), room, state)?;
        state.leave();
        number = number.saturating_add(1);
        blame = blame.or(rows.blame);
        if rows.first.len() >= room {
            let more = join_rows(c, alloc, place.goal, rule, rows.first)?;
            let first = joined(found, more)?;
            return Ok(Found { first, blame });
        }
        let more = join_copies(c, alloc, &place.goal, rule, rows.first)?;
        found = joined(found, more)?;
    }
    Ok(Found {
        first: found,
        blame,
    })
}

/// What is below a place by a choice, if that is not known yet.
fn opened<C: Calculus>(
    c: &C,
    alloc: Global,
    place: &Place<C::Goal>,
    rule: &C::Rule,
    below: Option<Below<C::Goal, C::Obligation>>,
) -> Result<Below<C::Goal, C::Obligation>, Stop<C::Question>>
    requires goal { C.is_goal c.now place.now.goal }
    requires choice { Contains ((C.calculus c.now).choices place.now.goal) rule.now }
    requires below { IfSome below (IsBelow (C.calculus c.now) (C.is_goal c.now) (C.is_refuted c.now) place.now rule.now) }
    ensures ok { IfOk result (IsBelow (C.calculus c.now) (C.is_goal c.now) (C.is_refuted c.now) place.now rule.now) }
    ensures err { IfErr result (Halts (C.is_spent c.now) place.now.goal) }
{
    match below {
        Some(below) => Ok(below),
        None => open(c, alloc, place, rule),
    }
}

/// The first rows of one derivation for each subgoal of a choice.
#[cycle(search)]
fn search_by<C: Calculus>(
    c: &C,
    alloc: Global,
    place: &Place<C::Goal>,
    rule: &C::Rule,
    below: Option<Below<C::Goal, C::Obligation>>,
    wanted: usize,
    state: &mut State,
) -> Result<Found<Vec<C::Proof>, C::Obligation>, Stop<C::Question>>
    requires wanted { 0 < wanted }
    requires goal { C.is_goal c.now place.now.goal }
    requires choice { Contains ((C.calculus c.now).choices place.now.goal) rule.now }
    requires below { IfSome below (IsBelow (C.calculus c.now) (C.is_goal c.now) (C.is_refuted c.now) place.now rule.now) }
    ensures fewer { OnOk result (state.new.budget.left ≤ state.old.budget.left) }
    ensures answer { let all = C.calculus c.now in
        let tree = place.now ∷ places_by all place.now.rank place.now.goal rule.now in
        MatchResult result
        (λ rows. Searched all tree (λ r. rows_by all r place.now.goal rule.now) place.now.rank wanted (uncounted state.old.budget) state.new.budget (map (λ row. row.items) rows.first.items))
        (Stops (C.is_spent c.now) tree (state.old.budget.left + 1)) }
    ensures blame { IfOk result (λ rows. rows.first.items ≡ [] → state.new.budget.is_cut ≡ false → MatchOption rows.blame ⊥ (BlamedBy (C.calculus c.now) (C.is_stuck c.now) (C.is_refuted c.now) place.now.goal rule.now)) }
{
    match opened(c, alloc, place, rule, below)? {
        Below::Cut => {
            state.budget.is_cut = true;
            Ok(Found {
                first: Vec::new(alloc),
                blame: None,
            })
        }
        Below::Refuted(obligation) => Ok(Found {
            first: Vec::new(alloc),
            blame: Some(obligation),
        }),
        Below::Goals(goals, left) => search_each(c, alloc, goals, left, wanted, state),
    }
}

/// The first rows of one derivation for each goal.
#[cycle(search)]
fn search_each<C: Calculus>(
    c: &C,
    alloc: Global,
    goals: Vec<C::Goal>,
    rank: u32,
    wanted: usize,
    state: &mut State,
) -> Result<Found<Vec<C::Proof>, C::Obligation>, Stop<C::Question>>
    requires wanted { 0 < wanted }
    requires goals { AllByRecursion (C.is_goal c.now) goals.items }
    ensures fewer { OnOk result (state.new.budget.left ≤ state.old.budget.left) }
    ensures answer { let all = C.calculus c.now in
        let trees = flat_map (places all rank) goals.items in
        MatchResult result
        (λ rows. Searched all trees (λ r. one_of_each (map (derivations all r) goals.items)) rank wanted state.old.budget state.new.budget (map (λ row. row.items) rows.first.items))
        (Stops (C.is_spent c.now) trees state.old.budget.left) }
    ensures blame { IfOk result (λ rows. rows.first.items ≡ [] → state.new.budget.is_cut ≡ false → MatchOption rows.blame ⊥ (BlamedAmong (C.calculus c.now) (C.is_stuck c.now) (C.is_refuted c.now) goals.items)) }
{
    let mut rows = one_row(alloc)?;
    for goal in goals {
        let Found { first, blame } = search(c, alloc, Place { goal, rank }, wanted, state)?;
        rows = extend_each(c, alloc, rows, first, wanted)?;
        if rows.is_empty() {
            return Ok(Found { first: rows, blame });
        }
    }
    Ok(Found {
        first: rows,
        blame: None,
    })
}
