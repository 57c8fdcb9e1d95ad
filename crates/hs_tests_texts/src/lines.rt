//! Lines of reports, with the name `a` and the text `b`.

use hs_print::{Line, Word};
use hs_pure::NoMemory;
use hs_text::Text;
use sqlite_items::Items;
use std::alloc::Global;

pub fn name(alloc: Global) -> Result<Text, NoMemory> {
    Ok(Text::from_str(alloc, "a")?)
}

pub fn other(alloc: Global) -> Result<Text, NoMemory> {
    Ok(Text::from_str(alloc, "b")?)
}

// A text of one line.
fn line(alloc: Global) -> Result<Text, NoMemory> {
    Ok(Text::from_str(alloc, "b\n")?)
}

fn residues(alloc: Global) -> Result<Items<Text>, NoMemory> {
    let mut residues = Items::new(alloc);
    residues.push(name(alloc)?)?;
    residues.push(other(alloc)?)?;
    Ok(residues)
}

pub fn of_claims(alloc: Global) -> Result<Vec<Line>, NoMemory> {
    let mut lines = Vec::new(alloc);
    lines.push(Line::Shown(name(alloc)?))?;
    lines.push(Line::Fails(name(alloc)?, other(alloc)?))?;
    lines.push(Line::InvStopped(name(alloc)?, Word::AtomsSpent))?;
    lines.push(Line::InvStopped(name(alloc)?, Word::PastBits))?;
    lines.push(Line::Valid(3, residues(alloc)?))?;
    lines.push(Line::Accepted(name(alloc)?, 2))?;
    lines.push(Line::PairInvariant(name(alloc)?, 2, other(alloc)?))?;
    Ok(lines)
}

pub fn of_numbers(alloc: Global) -> Result<Vec<Line>, NoMemory> {
    let mut lines = Vec::new(alloc);
    lines.push(Line::SleekSummary(1, 2, 0, 3))?;
    lines.push(Line::HipSummary(1, 2, 3, 4))?;
    lines.push(Line::RefusedWords)?;
    lines.push(Line::FileFault(name(alloc)?))?;
    Ok(lines)
}

pub fn of_derivations(alloc: Global) -> Result<Vec<Line>, NoMemory> {
    let mut lines = Vec::new(alloc);
    lines.push(Line::ProofAccepted(4, 1))?;
    lines.push(Line::ProofMissing(1))?;
    lines.push(Line::ProofStopped(2, Word::NumbersSpent))?;
    let words = [
        Word::Shape,
        Word::Rule,
        Word::Premise,
        Word::Residue,
        Word::Question,
    ];
    for word in words {
        lines.push(Line::ProofRefused(4, word))?;
    }
    lines.push(Line::DerivationText(line(alloc)?, false))?;
    Ok(lines)
}

pub fn of_runs(alloc: Global) -> Result<Vec<Line>, NoMemory> {
    let mut lines = Vec::new(alloc);
    lines.push(Line::CoreText(line(alloc)?))?;
    lines.push(Line::SourceText(line(alloc)?))?;
    lines.push(Line::Returned(Some(-5), 9, line(alloc)?))?;
    lines.push(Line::Returned(None, 9, line(alloc)?))?;
    lines.push(Line::Fault(name(alloc)?, 2, -1))?;
    lines.push(Line::RunWide(name(alloc)?, 3))?;
    lines.push(Line::Running(0))?;
    Ok(lines)
}
