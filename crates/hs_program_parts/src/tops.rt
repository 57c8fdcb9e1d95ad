//! New numbers, at most 2^30.

ghost use Rattle.std.specs.Prelude.{◌≡◌, ◌≤◌, ◌^◌, suc, max, MatchOption};
ghost use Rattle.hs_heap.specs.Variables.{vars_top};
ghost use Rattle.hs_program_rules.specs.Parts.{number_or_none, held_top, next_of, next_of_goal};

use hs_heap::Formula;
use hs_pure::Var;
use std::cmp::max;

const MAX_NEXT: u32 = 1 << 30;

fn number_or_none(slot: Option<Var>) -> u32
    ensures { result ≡ number_or_none slot }
{
    match slot {
        Some(v) => v.number,
        None => 0,
    }
}

fn held_top(held: &[Option<Var>]) -> u32
    ensures { result ≡ held_top held.now }
{
    let mut top = 0;
    for slot in held {
        top = max(top, number_or_none(*slot));
    }
    top
}

fn vars_top(vs: &[Var]) -> u32
    ensures { result ≡ vars_top vs.now }
{
    let mut top = 0;
    for v in vs {
        top = max(top, v.number);
    }
    top
}

// The least number that is not below `old` and is above `top`, where it is at most 2^30.
fn next_above(old: u32, top: u32) -> Option<u32>
    ensures { MatchOption result (¬ (max old (suc top) ≤ 2 ^ 30)) (λ n. (max old (suc top) ≤ 2 ^ 30) × (n ≡ max old (suc top))) }
{
    if old > MAX_NEXT || top >= MAX_NEXT {
        return None;
    }
    Some(max(old, top + 1))
}

/// The least number that is not below `old` and is above every number of a formula and of what slots hold. `None` comes
/// exactly where it is above 2^30.
pub fn next_of(old: u32, f: &Formula, held: &[Option<Var>]) -> Option<u32>
    ensures { MatchOption result (¬ (next_of old f.now held.now ≤ 2 ^ 30)) (λ n. (next_of old f.now held.now ≤ 2 ^ 30) × (n ≡ next_of old f.now held.now)) }
{
    next_above(old, max(f.top(), held_top(held)))
}

/// The least number that is not below `old` and is above every number of a goal. `None` comes exactly where it is above
/// 2^30.
pub fn next_of_goal(old: u32, left: &Formula, opens: &[Var], right: &Formula) -> Option<u32>
    ensures { MatchOption result (¬ (next_of_goal old left.now opens.now right.now ≤ 2 ^ 30)) (λ n. (next_of_goal old left.now opens.now right.now ≤ 2 ^ 30) × (n ≡ next_of_goal old left.now opens.now right.now)) }
{
    next_above(old, max(left.top(), max(vars_top(opens), right.top())))
}
