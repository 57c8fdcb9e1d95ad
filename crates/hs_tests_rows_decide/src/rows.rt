//! Rows and their answers.
ghost use Rattle.std.specs.Prelude.{◌≤◌, ◌^◌, IfOk};

use crate::answers::{X, push_implies, push_rest, push_substituted, push_unsat, push_value};
use crate::bags::{push_searched, push_told};
use crate::boxes::agrees;
use hs_pure::{Lin, Pure};
use hs_tests_formulas::{NoRow, case, conjunction, cut, formula, is_simple, number};
use sqlite_items::Items;
use std::alloc::Global;
use std::str;

// The most atoms of a row.
fn atoms(text: &str) -> Result<u64, NoRow>
    ensures { IfOk result (λ n. n ≤ 2 ^ 30) }
{
    match text.parse::<u64>() {
        Ok(atoms) if atoms <= 1 << 30 => Ok(atoms),
        _ => Err(NoRow),
    }
}

// What an implication is asked of.
#[derive(Drop)]
struct Question {
    atoms: u64,
    left: Box<Pure>,
    right: Box<Pure>,
}

fn asked(alloc: Global, row: &str) -> Result<Question, NoRow>
    ensures { IfOk result (λ q. q.atoms ≤ 2 ^ 30) }
{
    let (budget, sides) = cut(row, " ")?;
    let (left, right) = cut(sides, " |- ")?;
    Ok(Question {
        atoms: atoms(budget)?,
        left: formula(alloc, left)?,
        right: formula(alloc, right)?,
    })
}

fn push_question(alloc: Global, out: &mut String, row: &str) -> Result<(), NoRow> {
    let q = asked(alloc, row)?;
    push_implies(alloc, out, &q.left, &q.right, q.atoms)
}

fn push_untold(alloc: Global, out: &mut String, row: &str) -> Result<(), NoRow> {
    let q = asked(alloc, row)?;
    push_told(alloc, out, &q.left, &q.right, q.atoms)
}

fn push_bags(alloc: Global, out: &mut String, row: &str) -> Result<(), NoRow> {
    let q = asked(alloc, row)?;
    push_searched(alloc, out, &q.left, &q.right, q.atoms)
}

fn push_truth(alloc: Global, out: &mut String, row: &str) -> Result<(), NoRow> {
    let (budget, f) = cut(row, " ")?;
    let atoms = atoms(budget)?;
    push_unsat(alloc, out, &*formula(alloc, f)?, atoms)
}

fn push_elimination(alloc: Global, out: &mut String, row: &str) -> Result<(), NoRow> {
    let (budget, f) = cut(row, " ")?;
    let atoms = atoms(budget)?;
    let f = formula(alloc, f)?;
    if !is_simple(&f) {
        return Err(NoRow);
    }
    push_rest(alloc, out, &f, atoms)
}

fn push_substitution(alloc: Global, out: &mut String, row: &str) -> Result<(), NoRow> {
    let (equation, f) = cut(row, " in ")?;
    let equation = formula(alloc, equation)?;
    let f = formula(alloc, f)?;
    if !is_simple(&f) {
        return Err(NoRow);
    }
    match &*equation {
        Pure::Eq(_, term) => push_substituted(alloc, out, &f, term),
        _ => Err(NoRow),
    }
}

fn push_witness(alloc: Global, out: &mut String, row: &str) -> Result<(), NoRow> {
    let (budget, rest) = cut(row, " ")?;
    let (y, f) = cut(rest, " ")?;
    let atoms = atoms(budget)?;
    let f = formula(alloc, f)?;
    if !is_simple(&f) {
        return Err(NoRow);
    }
    push_value(alloc, out, &f, number(y)?, atoms)
}

fn push_agreement(out: &mut String, agrees: bool) -> Result<(), NoRow> {
    if agrees {
        write!(out, "agrees")?;
    } else {
        write!(out, "differs")?;
    }
    Ok(())
}

fn push_box_of(alloc: Global, out: &mut String, f: &Pure) -> Result<(), NoRow> {
    if is_simple(f) {
        push_agreement(out, agrees(alloc, f)?)
    } else {
        Err(NoRow)
    }
}

fn push_box(alloc: Global, out: &mut String, row: &str) -> Result<(), NoRow> {
    push_box_of(alloc, out, &*formula(alloc, row)?)
}

// `divides(0, v1)`, which no text spells
fn divides_0(alloc: Global) -> Result<Pure, NoRow> {
    Ok(Pure::Divides(
        0,
        Lin {
            terms: Items::from_slice(alloc, &[(X, 1)])?,
            constant: 0,
        },
    ))
}

fn push_box_or_0(alloc: Global, out: &mut String, row: &str) -> Result<(), NoRow> {
    let mut members = Items::new(alloc);
    members.push(divides_0(alloc)?)?;
    members.push(conjunction(case(alloc, row)?.pure))?;
    let f = Box::new(alloc, Pure::Or(members))?;
    push_box_of(alloc, out, &f)
}

fn push_row(alloc: Global, out: &mut String, row: &str) -> Result<(), NoRow> {
    let (call, rest) = cut(row, " ")?;
    match call {
        "implies" => push_question(alloc, out, rest),
        "told" => push_untold(alloc, out, rest),
        "bags" => push_bags(alloc, out, rest),
        "unsat" => push_truth(alloc, out, rest),
        "eliminate" => push_elimination(alloc, out, rest),
        "substitute" => push_substitution(alloc, out, rest),
        "witness" => push_witness(alloc, out, rest),
        "box" => push_box(alloc, out, rest),
        "box0" => push_box_or_0(alloc, out, rest),
        _ => Err(NoRow),
    }
}

// A row that is none says so.
fn push_answer(alloc: Global, out: &mut String, row: &str) -> Result<(), NoRow> {
    match push_row(alloc, out, row) {
        Ok(()) => Ok(()),
        Err(NoRow) => {
            write!(out, "no row")?;
            Ok(())
        }
    }
}

/// Each row, with its answer.
pub fn table(alloc: Global, bytes: &[u8]) -> Result<String, NoRow> {
    let mut out = String::new(alloc);
    let Ok(text) = str::from_utf8(bytes) else {
        return Err(NoRow);
    };
    for row in text.lines() {
        write!(out, "{row}\n")?;
        if !row.starts_with("//") {
            write!(out, "  ")?;
            push_answer(alloc, &mut out, row)?;
            write!(out, "\n")?;
        }
        write!(out, "\n")?;
    }
    Ok(out)
}
