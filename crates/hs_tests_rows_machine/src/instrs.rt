//! The instruction of a line.

use crate::words::{condition, numbers, slot, small, term};
use hs_core::Instr;
use hs_tests_formulas::{NoRow, cut};
use sqlite_items::Items;
use std::alloc::Global;

fn assign(alloc: Global, text: &str) -> Result<Instr, NoRow> {
    let (to, sum) = cut(text, " ")?;
    Ok(Instr::Assign(small(to)?, term(alloc, sum)?))
}

fn new_node(alloc: Global, text: &str) -> Result<Instr, NoRow> {
    let numbers = numbers(alloc, text)?;
    match numbers.as_slice() {
        [to, kind, args @ ..] => Ok(Instr::New(*to, *kind, Items::from_slice(alloc, args)?)),
        _ => Err(NoRow),
    }
}

fn get(alloc: Global, text: &str) -> Result<Instr, NoRow> {
    let numbers = numbers(alloc, text)?;
    match numbers.as_slice() {
        [to, at, kind, field] => Ok(Instr::Get(*to, *at, *kind, *field)),
        _ => Err(NoRow),
    }
}

fn set(alloc: Global, text: &str) -> Result<Instr, NoRow> {
    let numbers = numbers(alloc, text)?;
    match numbers.as_slice() {
        [at, kind, field, from] => Ok(Instr::Set(*at, *kind, *field, *from)),
        _ => Err(NoRow),
    }
}

fn branch(alloc: Global, text: &str) -> Result<Instr, NoRow> {
    let (other, asked) = cut(text, " ")?;
    Ok(Instr::Branch(condition(alloc, asked)?, small(other)?))
}

fn jump(text: &str) -> Result<Instr, NoRow> {
    Ok(Instr::Jump(small(text)?))
}

fn call(alloc: Global, text: &str) -> Result<Instr, NoRow> {
    let (to, rest) = cut(text, " ")?;
    let to = slot(to)?;
    let numbers = numbers(alloc, rest)?;
    match numbers.as_slice() {
        [method, args @ ..] => Ok(Instr::Call(to, *method, Items::from_slice(alloc, args)?)),
        _ => Err(NoRow),
    }
}

fn give(text: &str) -> Result<Instr, NoRow> {
    Ok(Instr::Return(slot(text)?))
}

pub fn instr(alloc: Global, line: &str) -> Result<Instr, NoRow> {
    let (word, rest) = cut(line, " ")?;
    match word {
        "assign" => assign(alloc, rest),
        "new" => new_node(alloc, rest),
        "get" => get(alloc, rest),
        "set" => set(alloc, rest),
        "branch" => branch(alloc, rest),
        "jump" => jump(rest),
        "call" => call(alloc, rest),
        "return" => give(rest),
        _ => Err(NoRow),
    }
}
