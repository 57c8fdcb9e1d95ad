//! Rows and their answers.

use crate::answers::{push_class, push_goal, push_rule, push_shape, push_verdict};
use crate::given::{NoRow, cut, formula, natural, no_case, resolved, variable};
use crate::reading::{formulas, goal, premises, rule};
use hs_goal::Goal;
use hs_heap::{Defs, Formula};
use hs_norm::Entailment;
use sqlite_items::Items;
use std::alloc::Global;
use std::str;

// What the rows so far gave.
#[derive(Drop)]
struct State {
    defs: Defs,
    goal: Goal,
    steps: Items<(Goal, Formula)>,
    // The most atoms of a stage of a decision.
    atoms: u64,
}

fn empty(alloc: Global) -> State {
    State {
        defs: Defs {
            nodes: Items::new(alloc),
            preds: Items::new(alloc),
            lemmas: Items::new(alloc),
        },
        goal: Goal::start(alloc, no_case(alloc), Items::new(alloc), no_case(alloc), 1),
        steps: Items::new(alloc),
        atoms: 200_000,
    }
}

fn is_source(row: &str) -> bool {
    row.starts_with("data") || row.starts_with("pred") || row.starts_with("entail")
}

fn start_of(alloc: Global, e: &Entailment) -> Result<Goal, NoRow> {
    let left = e.left.copy(alloc)?;
    let right = e.right.copy(alloc)?;
    let opens = Items::from_slice(alloc, e.opens.as_slice())?;
    Ok(Goal::start(alloc, left, opens, right, e.next))
}

fn push_start(alloc: Global, out: &mut String, t: &State) -> Result<(), NoRow> {
    write!(out, "  ")?;
    push_goal(alloc, out, &t.defs, &t.goal)?;
    push_shape(alloc, out, &t.defs, &t.goal)
}

fn take_source(alloc: Global, out: &mut String, t: &mut State, row: &str) -> Result<(), NoRow> {
    let r = Box::new(alloc, resolved(alloc, row)?)?;
    t.defs = r.defs.copy(alloc)?;
    let Some(e) = r.entailments.get(0) else {
        return Ok(());
    };
    t.goal = start_of(alloc, e)?;
    t.steps = Items::new(alloc);
    push_start(alloc, out, t)
}

fn take_goal(alloc: Global, out: &mut String, t: &mut State, text: &str) -> Result<(), NoRow> {
    t.goal = goal(alloc, &t.defs, text)?;
    push_shape(alloc, out, &t.defs, &t.goal)
}

fn push_class_row(alloc: Global, out: &mut String, t: &State, text: &str) -> Result<(), NoRow> {
    let (a, b) = cut(text, " ")?;
    push_class(alloc, out, &t.goal, variable(a)?, variable(b)?)
}

fn push_rule_row(alloc: Global, out: &mut String, t: &State, row: &str) -> Result<(), NoRow> {
    match row.split_once(" ; ") {
        Some((text, residues)) => {
            let rule = Box::new(alloc, rule(alloc, &t.defs, text)?)?;
            let residues = formulas(alloc, &t.defs, residues)?;
            push_rule(alloc, out, &t.defs, &t.goal, &rule, residues.as_slice())
        }
        None => {
            let rule = Box::new(alloc, rule(alloc, &t.defs, row)?)?;
            push_rule(alloc, out, &t.defs, &t.goal, &rule, &[])
        }
    }
}

// Whether the step to the goal is right.
fn push_step(
    alloc: Global,
    out: &mut String,
    t: &State,
    name: &str,
    from: &str,
    residue: &Formula,
) -> Result<(), NoRow> {
    let rule = Box::new(alloc, rule(alloc, &t.defs, name)?)?;
    let premises = premises(alloc, t.steps.as_slice(), from)?;
    push_verdict(
        alloc,
        out,
        &t.defs,
        &t.goal,
        residue,
        &rule,
        premises.as_slice(),
        t.atoms,
    )
}

fn keep(alloc: Global, t: &mut State, residue: Formula) -> Result<(), NoRow> {
    let goal = t.goal.copy(alloc)?;
    t.steps.push((goal, residue))?;
    Ok(())
}

// Of a step the number with the rule, and what follows the word `from`.
fn take_step(
    alloc: Global,
    out: &mut String,
    t: &mut State,
    head: &str,
    text: &str,
) -> Result<(), NoRow> {
    let (number, name) = cut(head, " ")?;
    let (from, text) = cut(text, " ; used ")?;
    let (parts, residue) = cut(text, " ; residue ")?;
    if (natural(number)? as usize).wrapping_sub(1) != t.steps.len() {
        return Err(NoRow);
    }
    let residue = formula(alloc, &t.defs, residue)?;
    t.goal = goal(alloc, &t.defs, parts)?;
    push_step(alloc, out, t, name, from, &residue)?;
    keep(alloc, t, residue)
}

fn push_other(alloc: Global, out: &mut String, t: &mut State, row: &str) -> Result<(), NoRow> {
    match row.split_once(" ; from") {
        Some((head, text)) => take_step(alloc, out, t, head, text),
        None => push_rule_row(alloc, out, t, row),
    }
}

fn push_row(alloc: Global, out: &mut String, t: &mut State, row: &str) -> Result<(), NoRow> {
    if is_source(row) {
        return take_source(alloc, out, t, row);
    }
    if row == "shape" {
        return push_shape(alloc, out, &t.defs, &t.goal);
    }
    if let Some(text) = row.strip_prefix("goal used ") {
        return take_goal(alloc, out, t, text);
    }
    if let Some(text) = row.strip_prefix("classes ") {
        return push_class_row(alloc, out, t, text);
    }
    if let Some(text) = row.strip_prefix("atoms ") {
        t.atoms = u64::from(natural(text)?);
        return Ok(());
    }
    push_other(alloc, out, t, row)
}

/// Each row, with its answer.
pub fn table(alloc: Global, bytes: &[u8]) -> Result<String, NoRow> {
    let mut out = String::new(alloc);
    let Ok(text) = str::from_utf8(bytes) else {
        return Err(NoRow);
    };
    // On the heap, so that it is dropped by one call.
    let mut state = Box::new(alloc, empty(alloc))?;
    for row in text.lines() {
        write!(out, "{row}\n")?;
        if !row.starts_with("//") {
            push_row(alloc, &mut out, &mut state, row)?;
        }
        write!(out, "\n")?;
    }
    Ok(out)
}
