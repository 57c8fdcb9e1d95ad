//! The search: cases are split until the rows of each part contradict one another, or values are found.

ghost use Rattle.std.specs.Prelude.{◌≡◌, true, IfOk, OnOk};
ghost use Rattle.std.specs.List.{All, Any};
ghost use Rattle.hs_pure.specs.Stack.{Stack};
ghost use Rattle.hs_equations.specs.Claims.{IsClaimed, IsCase, HoldsAll, HoldsAllStill};
ghost use Rattle.hs_equations.specs.Searching.{AreCases, IsSplit, AdvanceHolds};
ghost use Rattle.hs_equations.specs.Finding.{IfRefuted, IsCounter};
ghost use Rattle.hs_equations.specs.declared.finding.Finding.TheVariants.{Implied};

use crate::claim::{Case, Claim, State, assume};
use crate::confirm::{is_counter, is_told};
use crate::finding::Finding;
use crate::fourier::{Tower, raise_tower};
use crate::halt::{Halt, charge};
use crate::known::sifted_cases;
use crate::model::model;
use crate::rows::{copied_rows, settled};
use hs_pure::{Pure, Valuation};
use sqlite_items::Items;
use std::alloc::Global;

/// Cases in two parts.
#[derive(Debug, Drop)]
struct Cases<'a> {
    rest: Items<Case<'a>>,
    chosen: Items<Case<'a>>,
}

/// A state, and whether more may follow at once.
#[derive(Debug, Drop)]
struct Advance<'a> {
    state: State<'a>,
    moved: bool,
}

// The rounds of one advance at most.
const ROUNDS: u32 = 1_000_000;

// The place of a case with the fewest claims.
fn fewest(cases: &[Case]) -> Option<usize> {
    let mut best = None;
    let mut least = usize::MAX;
    for (i, case) in cases.iter().enumerate() {
        if case.claims.len() < least {
            best = Some(i);
            least = case.claims.len();
        }
    }
    best
}

// The place of a case with the fewest claims of those that the values do not make true, or of all.
fn failing(cases: &[Case], v: &Valuation) -> Option<usize> {
    let mut best = None;
    let mut least = usize::MAX;
    for (i, case) in cases.iter().enumerate() {
        if case.claims.len() < least && !is_met(case.claims.as_slice(), v) {
            best = Some(i);
            least = case.claims.len();
        }
    }
    if best.is_none() {
        return fewest(cases);
    }
    best
}

// Whether the values make one of the claims true.
fn is_met(claims: &[Claim], v: &Valuation) -> bool {
    for claim in claims {
        if is_told(claim.formula, v, claim.expected) {
            return true;
        }
    }
    false
}

// The place of a case with at most one claim.
fn forced_place(cases: &[Case]) -> Option<usize> {
    for (i, case) in cases.iter().enumerate() {
        if case.claims.len() <= 1 {
            return Some(i);
        }
    }
    None
}

fn put<'a>(cases: Cases<'a>, case: Case<'a>, chosen: bool) -> Result<Cases<'a>, Halt>
    ensures { IfOk result (λ r. (s : Stack) → AreCases s cases.entry → IsCase s case.entry → AreCases s r) }
{
    if chosen {
        put_chosen(cases, case)
    } else {
        put_rest(cases, case)
    }
}

fn put_chosen<'a>(cases: Cases<'a>, case: Case<'a>) -> Result<Cases<'a>, Halt>
    ensures { IfOk result (λ r. (s : Stack) → AreCases s cases.entry → IsCase s case.entry → AreCases s r) }
{
    let Cases { rest, mut chosen } = cases;
    chosen.push(case)?;
    Ok(Cases { rest, chosen })
}

fn put_rest<'a>(cases: Cases<'a>, case: Case<'a>) -> Result<Cases<'a>, Halt>
    ensures { IfOk result (λ r. (s : Stack) → AreCases s cases.entry → IsCase s case.entry → AreCases s r) }
{
    let Cases { mut rest, chosen } = cases;
    rest.push(case)?;
    Ok(Cases { rest, chosen })
}

// The case at a place, and the others.
fn take_case<'a>(alloc: Global, cases: Items<Case<'a>>, at: usize) -> Result<Cases<'a>, Halt>
    ensures { IfOk result (λ r. (s : Stack) → All (IsCase s) cases.entry → AreCases s r) }
{
    let mut left = cases;
    let mut parts = Cases {
        rest: Items::new(alloc),
        chosen: Items::new(alloc),
    };
    while let Some(case) = left.pop() {
        let chosen = left.len() == at;
        parts = put(parts, case, chosen)?;
    }
    Ok(parts)
}

/// A state and a case of it.
#[derive(Debug, Drop)]
struct Split<'a> {
    state: State<'a>,
    case: Case<'a>,
}

// The state without the case at a place, and that.
fn split_off<'a>(alloc: Global, state: State<'a>, at: usize) -> Result<Split<'a>, Halt>
    ensures { IfOk result (λ r. (s : Stack) → HoldsAll s state.entry → IsSplit s r) }
{
    let State { rows, cases } = state;
    let parts = take_case(alloc, cases, at)?;
    let Cases { rest, mut chosen } = parts;
    match chosen.pop() {
        Some(case) => {
            let state = State { rows, cases: rest };
            Ok(Split { state, case })
        }
        None => Err(Halt::Spent),
    }
}

// The state with the one claim of the case at a place; none where it has no claim.
fn forced<'a>(alloc: Global, state: State<'a>, at: usize) -> Result<Option<Advance<'a>>, Halt>
    ensures { IfOk result (λ o. (s : Stack) → HoldsAll s state.entry → AdvanceHolds s o) }
{
    let split = split_off(alloc, state, at)?;
    let Split { state, case } = split;
    let Case { mut claims } = case;
    match claims.pop() {
        Some(claim) => forced_by(alloc, state, &claim, claims.is_empty()),
        None => Ok(None),
    }
}

fn forced_by<'a>(
    alloc: Global,
    state: State<'a>,
    claim: &Claim<'a>,
    alone: bool,
) -> Result<Option<Advance<'a>>, Halt>
    ensures alone { OnOk result (alone ≡ true) }
    ensures holds { IfOk result (λ o. (s : Stack) → HoldsAll s state.entry → IsClaimed s claim.now → AdvanceHolds s o) }
{
    if !alone {
        return Err(Halt::Spent);
    }
    let next = assume(alloc, state, claim.formula, claim.expected)?;
    Ok(Some(Advance {
        state: next,
        moved: true,
    }))
}

// One round: rows are taken in, cases are sifted, and one with a single claim is resolved.
fn advanced<'a>(
    alloc: Global,
    state: State<'a>,
    steps: &mut u64,
) -> Result<Option<Advance<'a>>, Halt>
    ensures { IfOk result (λ o. (s : Stack) → HoldsAll s state.entry → AdvanceHolds s o) }
{
    let State { rows, cases } = state;
    let taken = settled(alloc, rows, steps)?;
    match taken {
        Some(rows) => advanced_cases(alloc, State { rows, cases }, steps),
        None => Ok(None),
    }
}

fn advanced_cases<'a>(
    alloc: Global,
    state: State<'a>,
    steps: &mut u64,
) -> Result<Option<Advance<'a>>, Halt>
    ensures { IfOk result (λ o. (s : Stack) → HoldsAll s state.entry → AdvanceHolds s o) }
{
    let place = forced_place(state.cases.as_slice());
    match place {
        Some(at) => forced(alloc, state, at),
        None => advanced_sifted(alloc, state, steps),
    }
}

fn advanced_sifted<'a>(
    alloc: Global,
    state: State<'a>,
    steps: &mut u64,
) -> Result<Option<Advance<'a>>, Halt>
    ensures { IfOk result (λ o. (s : Stack) → HoldsAll s state.entry → AdvanceHolds s o) }
{
    let looked = state.cases.len().saturating_mul(state.rows.taken.len());
    charge(steps, looked / 16)?;
    let sifted = sifted_cases(alloc, state)?;
    let place = forced_place(sifted.cases.as_slice());
    match place {
        Some(at) => forced(alloc, sifted, at),
        None => Ok(Some(Advance {
            state: sifted,
            moved: false,
        })),
    }
}

// The state when nothing more follows at once; none where it is contradictory.
fn at_rest<'a>(alloc: Global, state: State<'a>, steps: &mut u64) -> Result<Option<State<'a>>, Halt>
    ensures { IfOk result (λ o. (s : Stack) → HoldsAll s state.entry → HoldsAllStill s o) }
{
    let mut now = state;
    'rounds: for _ in 0..ROUNDS {
        let next = advanced(alloc, now, steps)?;
        let Some(advance) = next else {
            return Ok(None);
        };
        let Advance { state, moved } = advance;
        if !moved {
            return Ok(Some(state));
        }
        now = state;
    }
    Err(Halt::Spent)
}

fn copied_cases<'a>(alloc: Global, cases: &[Case<'a>]) -> Result<Items<Case<'a>>, Halt>
    ensures { IfOk result (λ all. all ≡ cases.now) }
{
    let mut all = Items::new(alloc);
    for case in cases {
        let claims = Items::from_slice(alloc, case.claims.as_slice())?;
        all.push(Case { claims })?;
    }
    Ok(all)
}

fn copied<'a>(alloc: Global, state: &State<'a>) -> Result<State<'a>, Halt>
    ensures { IfOk result (λ t. t ≡ state.now) }
{
    Ok(State {
        rows: state.rows.copy(alloc)?,
        cases: copied_cases(alloc, state.cases.as_slice())?,
    })
}

// What is found of the formulas where the state is: `Implied` where it is contradictory.
#[cycle(solving)]
pub(crate) fn solve(
    alloc: Global,
    a: &Pure,
    b: &Pure,
    state: State,
    depth: u32,
    steps: &mut u64,
) -> Result<Finding, Halt>
    ensures implied { IfOk result (λ r. r ≡ Implied → (s : Stack) → ¬ (HoldsAll s state.entry)) }
    ensures refuted { IfOk result (λ r. IfRefuted r (IsCounter a.now b.now)) }
{
    let rest = at_rest(alloc, state, steps)?;
    match rest {
        Some(state) => solve_at_rest(alloc, a, b, state, depth, steps),
        None => Ok(Finding::Implied),
    }
}

// The same of a state from which nothing more follows at once.
#[cycle(solving)]
fn solve_at_rest(
    alloc: Global,
    a: &Pure,
    b: &Pure,
    state: State,
    depth: u32,
    steps: &mut u64,
) -> Result<Finding, Halt>
    ensures implied { IfOk result (λ r. r ≡ Implied → (s : Stack) → ¬ (HoldsAll s state.entry)) }
    ensures refuted { IfOk result (λ r. IfRefuted r (IsCounter a.now b.now)) }
{
    let copy = copied_rows(alloc, state.rows.taken.as_slice())?;
    let found = raise_tower(alloc, copy, steps)?;
    match found {
        Some(tower) => solve_with(alloc, a, b, state, &tower, depth, steps),
        None => Ok(Finding::Implied),
    }
}

// The same of a state whose rows are not contradictory: values of the rows are tried, and a case that they do not
// make true is split.
#[cycle(solving)]
fn solve_with(
    alloc: Global,
    a: &Pure,
    b: &Pure,
    state: State,
    tower: &Tower,
    depth: u32,
    steps: &mut u64,
) -> Result<Finding, Halt>
    ensures implied { IfOk result (λ r. r ≡ Implied → (s : Stack) → ¬ (HoldsAll s state.entry)) }
    ensures refuted { IfOk result (λ r. IfRefuted r (IsCounter a.now b.now)) }
{
    let values = model(alloc, tower, state.rows.solved.as_slice())?;
    match values {
        Some(v) => solve_at(alloc, a, b, state, v, depth, steps),
        None => {
            let place = fewest(state.cases.as_slice());
            solve_place(alloc, a, b, state, place, depth, steps)
        }
    }
}

// The same of a state and values of its rows.
#[cycle(solving)]
fn solve_at(
    alloc: Global,
    a: &Pure,
    b: &Pure,
    state: State,
    v: Valuation,
    depth: u32,
    steps: &mut u64,
) -> Result<Finding, Halt>
    ensures implied { IfOk result (λ r. r ≡ Implied → (s : Stack) → ¬ (HoldsAll s state.entry)) }
    ensures refuted { IfOk result (λ r. IfRefuted r (IsCounter a.now b.now)) }
{
    if is_counter(a, b, &v) {
        return Ok(Finding::Refuted(v));
    }
    let place = failing(state.cases.as_slice(), &v);
    solve_place(alloc, a, b, state, place, depth, steps)
}

// The same where the case at a place is split, if there is one.
#[cycle(solving)]
fn solve_place(
    alloc: Global,
    a: &Pure,
    b: &Pure,
    state: State,
    place: Option<usize>,
    depth: u32,
    steps: &mut u64,
) -> Result<Finding, Halt>
    ensures implied { IfOk result (λ r. r ≡ Implied → (s : Stack) → ¬ (HoldsAll s state.entry)) }
    ensures refuted { IfOk result (λ r. IfRefuted r (IsCounter a.now b.now)) }
{
    if depth == 0 {
        return Ok(Finding::Open);
    }
    match place {
        Some(at) => solve_split(alloc, a, b, state, at, depth - 1, steps),
        None => Ok(Finding::Open),
    }
}

// The same of a state with a case at a place.
#[cycle(solving)]
fn solve_split(
    alloc: Global,
    a: &Pure,
    b: &Pure,
    state: State,
    at: usize,
    depth: u32,
    steps: &mut u64,
) -> Result<Finding, Halt>
    ensures implied { IfOk result (λ r. r ≡ Implied → (s : Stack) → ¬ (HoldsAll s state.entry)) }
    ensures refuted { IfOk result (λ r. IfRefuted r (IsCounter a.now b.now)) }
{
    let split = split_off(alloc, state, at)?;
    let Split { state, case } = split;
    let claims = case.claims.as_slice();
    solve_parts(alloc, a, b, &state, claims, depth, steps)
}

// The same of a state where one of the claims is true.
#[cycle(solving)]
fn solve_parts(
    alloc: Global,
    a: &Pure,
    b: &Pure,
    state: &State,
    claims: &[Claim],
    depth: u32,
    steps: &mut u64,
) -> Result<Finding, Halt>
    ensures implied { IfOk result (λ r. r ≡ Implied → (s : Stack) → HoldsAll s state.now → ¬ (Any (IsClaimed s) claims.now)) }
    ensures refuted { IfOk result (λ r. IfRefuted r (IsCounter a.now b.now)) }
{
    for claim in claims {
        let found = solve_part(alloc, a, b, state, claim, depth, steps)?;
        match found {
            Finding::Implied => {}
            Finding::Refuted(v) => return Ok(Finding::Refuted(v)),
            Finding::Open => return Ok(Finding::Open),
        }
    }
    Ok(Finding::Implied)
}

// The same of a state with one more claim.
#[cycle(solving)]
fn solve_part(
    alloc: Global,
    a: &Pure,
    b: &Pure,
    state: &State,
    claim: &Claim,
    depth: u32,
    steps: &mut u64,
) -> Result<Finding, Halt>
    ensures implied { IfOk result (λ r. r ≡ Implied → (s : Stack) → HoldsAll s state.now → ¬ (IsClaimed s claim.now)) }
    ensures refuted { IfOk result (λ r. IfRefuted r (IsCounter a.now b.now)) }
{
    charge(steps, state.rows.taken.len())?;
    let copy = copied(alloc, state)?;
    let part = assume(alloc, copy, claim.formula, claim.expected)?;
    solve(alloc, a, b, part, depth, steps)
}
