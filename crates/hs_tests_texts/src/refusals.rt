//! Refusals, with the name `a` and the text `b`.

use crate::lines::{name, other};
use hs_print::{Line, Refusal};
use hs_pure::NoMemory;
use std::alloc::Global;

fn refused(alloc: Global, refusals: Vec<Refusal>) -> Result<Vec<Line>, NoMemory> {
    let mut lines = Vec::new(alloc);
    for refusal in refusals {
        lines.push(Line::Refused(refusal))?;
    }
    Ok(lines)
}

pub fn of_texts(alloc: Global) -> Result<Vec<Line>, NoMemory> {
    let mut all = Vec::new(alloc);
    all.push(Refusal::FileTooLarge)?;
    all.push(Refusal::NotUtf8(1))?;
    all.push(Refusal::BadByte(2))?;
    all.push(Refusal::LiteralWide(3))?;
    all.push(Refusal::NameLong(4))?;
    all.push(Refusal::Unexpected(5))?;
    all.push(Refusal::UnexpectedEnd(6))?;
    all.push(Refusal::TooDeep(7))?;
    all.push(Refusal::NotBuilt)?;
    refused(alloc, all)
}

pub fn of_sources(alloc: Global) -> Result<Vec<Line>, NoMemory> {
    let mut all = Vec::new(alloc);
    all.push(Refusal::Kind(1))?;
    all.push(Refusal::Arity(2))?;
    all.push(Refusal::TooMany(3))?;
    all.push(Refusal::Shape(4))?;
    all.push(Refusal::BadType(5))?;
    all.push(Refusal::Unset(6))?;
    all.push(Refusal::NoReturn(7))?;
    all.push(Refusal::TooLong(8))?;
    all.push(Refusal::RefTwice(9))?;
    all.push(Refusal::ReturnInLoop(10))?;
    refused(alloc, all)
}

pub fn of_names(alloc: Global) -> Result<Vec<Line>, NoMemory> {
    let mut all = Vec::new(alloc);
    all.push(Refusal::Unknown(name(alloc)?))?;
    all.push(Refusal::Twice(name(alloc)?))?;
    all.push(Refusal::UnknownMethod(name(alloc)?))?;
    all.push(Refusal::MethodTakes(name(alloc)?, 2))?;
    refused(alloc, all)
}

pub fn of_predicates(alloc: Global) -> Result<Vec<Line>, NoMemory> {
    let mut all = Vec::new(alloc);
    all.push(Refusal::RootPredicate(name(alloc)?, 2))?;
    all.push(Refusal::NoRoot(name(alloc)?, 3))?;
    all.push(Refusal::Unreached(name(alloc)?, 1, other(alloc)?))?;
    refused(alloc, all)
}

pub fn of_lines(alloc: Global) -> Result<Vec<Line>, NoMemory> {
    let mut all = Vec::new(alloc);
    all.push(Refusal::ProofVersion(2))?;
    all.push(Refusal::ProofForward(3))?;
    all.push(Refusal::ProofLine(4))?;
    all.push(Refusal::HeapLine(1))?;
    refused(alloc, all)
}
