//! Causes, with the name `a` and the text `b`.

use crate::lines::{name, other};
use hs_print::{Line, Tried, Why};
use hs_pure::NoMemory;
use sqlite_items::Items;
use std::alloc::Global;

fn entailments(alloc: Global, causes: Vec<Why>) -> Result<Vec<Line>, NoMemory> {
    let mut lines = Vec::new(alloc);
    for cause in causes {
        lines.push(Line::Unknown(1, cause))?;
    }
    Ok(lines)
}

pub fn of_entailments(alloc: Global) -> Result<Vec<Line>, NoMemory> {
    let mut causes = Vec::new(alloc);
    causes.push(Why::Goals(20_000))?;
    causes.push(Why::Atoms(name(alloc)?))?;
    causes.push(Why::Wide(name(alloc)?))?;
    causes.push(Why::Rank(12))?;
    causes.push(Why::NotImplied(name(alloc)?, other(alloc)?))?;
    causes.push(Why::NoChoice(name(alloc)?))?;
    causes.push(Why::OpenRoot(name(alloc)?))?;
    causes.push(Why::OpenBag(name(alloc)?))?;
    causes.push(Why::Invariant(name(alloc)?))?;
    causes.push(Why::Numbers)?;
    entailments(alloc, causes)
}

pub fn of_pairs(alloc: Global) -> Result<Vec<Line>, NoMemory> {
    let mut tried = Vec::new(alloc);
    tried.push(Tried::Pair(2, Why::Rank(3)))?;
    tried.push(Tried::Get(Why::Numbers))?;
    tried.push(Tried::Set(Why::Numbers))?;
    tried.push(Tried::Return(Why::Numbers))?;
    tried.push(Tried::States(7))?;
    tried.push(Tried::Numbers)?;
    let mut lines = Vec::new(alloc);
    lines.push(Line::Rejected(name(alloc)?, 1, 4, Items::from_vec(tried)))?;
    Ok(lines)
}
