//! Answers and their texts.
ghost use Rattle.std.specs.Prelude.{◌≤◌, ◌^◌, IsTrue};
ghost use Rattle.hs_pure.specs.Assertion.{assertion_of};
ghost use Rattle.hs_pure.specs.Sums.{IsOrdered};
ghost use Rattle.hs_elimination.specs.Normal.{is_simple};

use hs_cooper::{Stop, eliminate, substitute, witness};
use hs_decide::{Answer, implies, unsat};
use hs_print::numbered_pure;
use hs_pure::{Lin, Pure, Valuation, Var};
use hs_tests_formulas::{NoRow, is_decidable};
use sqlite_items::Items;
use std::alloc::Global;

pub const X: Var = Var {
    number: 1,
    bag: false,
};

pub const Y: Var = Var {
    number: 2,
    bag: false,
};

pub const Z: Var = Var {
    number: 3,
    bag: false,
};

fn push_element(out: &mut String, element: (i128, i128)) -> Result<(), NoRow> {
    let (value, count) = element;
    write!(out, "{value}:{count}")?;
    Ok(())
}

fn push_elements(out: &mut String, elements: &[(i128, i128)]) -> Result<(), NoRow> {
    let Some((first, later)) = elements.split_first() else {
        return Ok(());
    };
    push_element(out, *first)?;
    for element in later {
        write!(out, ", ")?;
        push_element(out, *element)?;
    }
    Ok(())
}

// The values of the variables that are free in a side.
fn push_values(out: &mut String, left: &Pure, right: &Pure, v: &Valuation) -> Result<(), NoRow> {
    for (x, value) in v.numbers.as_slice() {
        if left.has(*x) || right.has(*x) {
            let number = x.number;
            write!(out, " v{number}={value}")?;
        }
    }
    for (x, elements) in v.bags.as_slice() {
        if left.has(*x) || right.has(*x) {
            let number = x.number;
            write!(out, " V{number}={{")?;
            push_elements(out, elements.as_slice())?;
            write!(out, "}}")?;
        }
    }
    Ok(())
}

// The copy of an answer.
fn push_answer(
    alloc: Global,
    out: &mut String,
    left: &Pure,
    right: &Pure,
    answer: &Answer,
) -> Result<(), NoRow> {
    match answer.copy(alloc)? {
        Answer::Yes => write!(out, "yes")?,
        Answer::No(v) => {
            write!(out, "no at")?;
            push_values(out, left, right, &v)?;
        }
        Answer::Atoms => write!(out, "atoms")?,
        Answer::Wide => write!(out, "wide")?,
    }
    Ok(())
}

fn push_stop(out: &mut String, stop: Stop) -> Result<(), NoRow> {
    match stop {
        Stop::Atoms => write!(out, "atoms")?,
        Stop::Wide => write!(out, "wide")?,
        Stop::Memory => return Err(NoRow),
    }
    Ok(())
}

/// The answer, where the question may be asked.
pub fn answered(alloc: Global, left: &Pure, right: &Pure, atoms: u64) -> Result<Box<Answer>, NoRow>
    requires small { atoms ≤ 2 ^ 30 }
{
    if !is_decidable(left) || !is_decidable(right) {
        return Err(NoRow);
    }
    Ok(Box::new(alloc, implies(alloc, left, right, atoms)?)?)
}

pub fn push_implies(
    alloc: Global,
    out: &mut String,
    left: &Pure,
    right: &Pure,
    atoms: u64,
) -> Result<(), NoRow>
    requires small { atoms ≤ 2 ^ 30 }
{
    let answer = answered(alloc, left, right, atoms)?;
    push_answer(alloc, out, left, right, &answer)
}

pub fn push_unsat(alloc: Global, out: &mut String, f: &Pure, atoms: u64) -> Result<(), NoRow>
    requires small { atoms ≤ 2 ^ 30 }
{
    if !is_decidable(f) {
        return Err(NoRow);
    }
    push_answer(alloc, out, f, f, &unsat(alloc, f, atoms)?)
}

pub fn push_rest(alloc: Global, out: &mut String, f: &Pure, atoms: u64) -> Result<(), NoRow>
    requires simple { IsTrue (is_simple (assertion_of f.now)) }
    requires ordered { IsOrdered f.now }
    requires small { atoms ≤ 2 ^ 30 }
{
    match eliminate(alloc, X, f, atoms) {
        Ok(rest) => {
            let rest = Box::new(alloc, rest)?;
            let text = numbered_pure(alloc, &rest)?;
            write!(out, "{text}")?;
            Ok(())
        }
        Err(stop) => push_stop(out, stop),
    }
}

pub fn push_substituted(alloc: Global, out: &mut String, f: &Pure, term: &Lin) -> Result<(), NoRow>
    requires simple { IsTrue (is_simple (assertion_of f.now)) }
    requires ordered { IsOrdered f.now }
{
    match substitute(alloc, f, X, term) {
        Ok(rest) => {
            let rest = Box::new(alloc, rest)?;
            let text = numbered_pure(alloc, &rest)?;
            write!(out, "{text}")?;
            Ok(())
        }
        Err(stop) => push_stop(out, stop),
    }
}

pub fn push_value(
    alloc: Global,
    out: &mut String,
    f: &Pure,
    y: i128,
    atoms: u64,
) -> Result<(), NoRow>
    requires simple { IsTrue (is_simple (assertion_of f.now)) }
    requires ordered { IsOrdered f.now }
    requires small { atoms ≤ 2 ^ 30 }
{
    let v = Valuation {
        numbers: Items::from_slice(alloc, &[(Y, y)])?,
        bags: Items::new(alloc),
    };
    match witness(alloc, X, f, &v, atoms) {
        Ok(Some(x)) => write!(out, "{x}")?,
        Ok(None) => write!(out, "none")?,
        Err(stop) => push_stop(out, stop)?,
    }
    Ok(())
}
