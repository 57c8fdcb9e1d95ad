//! Goals, rules and premises of rows.

use crate::given::{NoRow, atoms, cut, formula, natural, no_case, pure, variable};
use hs_goal::{ERule, Goal};
use hs_heap::{Defs, Formula};
use hs_pure::Var;
use sqlite_items::Items;
use std::alloc::Global;

// A list, each item after a blank.
fn variables(alloc: Global, text: &str) -> Result<Items<Var>, NoRow> {
    let mut all = Items::new(alloc);
    if let Some(names) = text.strip_prefix(" ") {
        for name in names.split(", ") {
            all.push(variable(name)?)?;
        }
    }
    Ok(all)
}

/// The goal whose parts follow the word `used`.
pub fn goal(alloc: Global, defs: &Defs, text: &str) -> Result<Goal, NoRow> {
    let (used, rest) = cut(text, " ; left ")?;
    let (left, rest) = cut(rest, " ; opens")?;
    let mut goal = right_part(alloc, defs, rest)?;
    goal.used = atoms(alloc, defs, used)?;
    goal.left = formula(alloc, defs, left)?;
    Ok(goal)
}

// The goal without what it has on the left.
fn right_part(alloc: Global, defs: &Defs, text: &str) -> Result<Goal, NoRow> {
    let (opens, rest) = cut(text, " ; right ")?;
    let (right, rest) = cut(rest, " ; next ")?;
    let (next, looked) = cut(rest, " ; looked ")?;
    let next = natural(next)?;
    let opens = variables(alloc, opens)?;
    let right = formula(alloc, defs, right)?;
    let mut goal = Goal::start(alloc, no_case(alloc), opens, right, next);
    goal.looked = looked == "1";
    Ok(goal)
}

/// A rule with its places.
pub fn rule(alloc: Global, defs: &Defs, text: &str) -> Result<ERule, NoRow> {
    match text.split_once(" ") {
        None => bare_rule(text),
        Some((name, places)) => {
            if name == "split" {
                Ok(ERule::Split(pure(alloc, defs, places)?))
            } else {
                placed_rule(name, places)
            }
        }
    }
}

fn bare_rule(name: &str) -> Result<ERule, NoRow> {
    match name {
        "leftor" => Ok(ERule::LeftOr),
        "leftexists" => Ok(ERule::LeftExists),
        "rightexists" => Ok(ERule::RightExists),
        _ => Err(NoRow),
    }
}

fn placed_rule(name: &str, places: &str) -> Result<ERule, NoRow> {
    match places.split_once(" ") {
        Some((m, n)) => rule_of_two(name, natural(m)?, natural(n)?),
        None => rule_of_one(name, natural(places)?),
    }
}

fn rule_of_one(name: &str, n: u32) -> Result<ERule, NoRow> {
    match name {
        "false" => Ok(ERule::False(n)),
        "rightor" => Ok(ERule::RightOr(n)),
        "instantiate" => Ok(ERule::Instantiate(n)),
        "unfold" => Ok(ERule::Unfold(n)),
        "empty" => Ok(ERule::Empty(n)),
        _ => Err(NoRow),
    }
}

fn rule_of_two(name: &str, m: u32, n: u32) -> Result<ERule, NoRow> {
    match name {
        "match" => Ok(ERule::Match(m, n)),
        "fold" => Ok(ERule::Fold(m, n)),
        "lemma" => Ok(ERule::Lemma(m, n)),
        _ => Err(NoRow),
    }
}

/// Formulas that are parted by ` ; `.
pub fn formulas(alloc: Global, defs: &Defs, text: &str) -> Result<Items<Formula>, NoRow> {
    let mut all = Items::new(alloc);
    for part in text.split(" ; ") {
        all.push(formula(alloc, defs, part)?)?;
    }
    Ok(all)
}

/// The steps of a list of numbers from 1, each after a blank.
pub fn premises(
    alloc: Global,
    steps: &[(Goal, Formula)],
    text: &str,
) -> Result<Items<(Goal, Formula)>, NoRow> {
    let mut all = Items::new(alloc);
    if let Some(numbers) = text.strip_prefix(" ") {
        for number in numbers.split(", ") {
            all.push(step(alloc, steps, natural(number)?)?)?;
        }
    }
    Ok(all)
}

fn step(alloc: Global, steps: &[(Goal, Formula)], n: u32) -> Result<(Goal, Formula), NoRow> {
    match steps.get((n as usize).wrapping_sub(1)) {
        Some((goal, residue)) => Ok((goal.copy(alloc)?, residue.copy(alloc)?)),
        None => Err(NoRow),
    }
}
