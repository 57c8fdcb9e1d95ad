//! States elsewhere, and the goals that states ask.

ghost use Rattle.std.specs.Prelude.{◌≡◌, ◌≤◌, ◌^◌, ◌++◌, ◌∷◌, [], IfOk, OnOk};
ghost use Rattle.hs_program_rules.specs.Parts.{goes, asked};
ghost use Rattle.hs_sides.specs.Answers.{IsGiven};

use hs_core::{At, State};
use hs_goal::Goal;
use hs_heap::Formula;
use hs_program_parts::{next_of, next_of_goal};
use hs_pure::{NoMemory, Var};
use hs_sides::RuleError;
use sqlite_items::Items;
use std::alloc::Global;

// The state at another point, with a new formula. `NotApplicable` comes exactly where its `next` would pass 2^30.
pub fn goes(at: &At, point: u32, held: Items<Option<Var>>, f: Formula) -> Result<At, RuleError>
    ensures { IsGiven ((goes at.now point held f).state.next ≤ 2 ^ 30) (goes at.now point held f) result }
{
    match next_of(at.state.next, &f, held.as_slice()) {
        None => Err(RuleError::NotApplicable),
        Some(next) => Ok(At {
            method: at.method,
            pair: at.pair,
            point,
            state: State {
                slots: held,
                formula: f,
                next,
            },
        }),
    }
}

// The goal that the state's formula implies the right side. `NotApplicable` comes exactly where its `next` would pass
// 2^30.
pub fn asked(
    alloc: Global,
    at: &At,
    low: u32,
    opens: Items<Var>,
    right: Formula,
) -> Result<Goal, RuleError>
    ensures { IsGiven ((asked at.now low opens right).next ≤ 2 ^ 30) (asked at.now low opens right) result }
{
    match next_of_goal(low, &at.state.formula, opens.as_slice(), &right) {
        None => Err(RuleError::NotApplicable),
        Some(next) => {
            let left = at.state.formula.copy(alloc)?;
            Ok(Goal::start(alloc, left, opens, right, next))
        }
    }
}

pub fn copy_slots(alloc: Global, slots: &[Option<Var>]) -> Result<Items<Option<Var>>, NoMemory>
    ensures { IfOk result (λ all. all ≡ slots.now) }
{
    Ok(Items::from_slice(alloc, slots)?)
}

// Puts a state at the end.
pub fn add(all: &mut Items<At>, a: At) -> Result<(), NoMemory>
    ensures { OnOk result (all.new ≡ all.old ++ a ∷ []) }
{
    Ok(all.push(a)?)
}

// One state alone.
pub fn one(alloc: Global, a: At) -> Result<Items<At>, NoMemory>
    ensures { IfOk result (λ all. all ≡ a ∷ []) }
{
    let mut all = Items::new(alloc);
    all.push(a)?;
    Ok(all)
}

pub fn two(alloc: Global, a: At, b: At) -> Result<Items<At>, NoMemory>
    ensures { IfOk result (λ all. all ≡ a ∷ b ∷ []) }
{
    let mut all = Items::new(alloc);
    all.push(a)?;
    all.push(b)?;
    Ok(all)
}
