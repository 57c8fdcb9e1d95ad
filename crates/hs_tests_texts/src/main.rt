//! A table of texts: each line of reports, each cause and refusal once, variables and valuations.
#![tactic(auto)]

mod causes;
mod lines;
mod refusals;
mod variables;

use hs_print::{Line, text};
use hs_pure::NoMemory;
use std::alloc::Global;
use std::io;
use std::io::Write;
use std::process::ExitCode;

fn main(rt: HostRuntime) -> ExitCode {
    let Ok(table) = table(rt.alloc()) else {
        return ExitCode::from(6);
    };
    match io::writer(&rt).write_all(table.as_bytes()) {
        Ok(()) => ExitCode::from(0),
        Err(_) => ExitCode::from(5),
    }
}

// A heading, and the report of these lines.
fn push_report(
    alloc: Global,
    out: &mut String,
    heading: &str,
    lines: &[Line],
) -> Result<(), NoMemory> {
    let report = text(alloc, lines)?;
    write!(out, "// {heading}\n{report}\n")?;
    Ok(())
}

fn table(alloc: Global) -> Result<String, NoMemory> {
    let mut out = String::new(alloc);
    push_report(alloc, &mut out, "Claims.", &lines::of_claims(alloc)?)?;
    push_report(alloc, &mut out, "Summaries.", &lines::of_numbers(alloc)?)?;
    push_report(
        alloc,
        &mut out,
        "Derivations.",
        &lines::of_derivations(alloc)?,
    )?;
    push_report(alloc, &mut out, "Runs.", &lines::of_runs(alloc)?)?;
    push_report(alloc, &mut out, "Causes.", &causes::of_entailments(alloc)?)?;
    push_report(
        alloc,
        &mut out,
        "What was tried.",
        &causes::of_pairs(alloc)?,
    )?;
    push_report(
        alloc,
        &mut out,
        "Refused texts.",
        &refusals::of_texts(alloc)?,
    )?;
    push_report(
        alloc,
        &mut out,
        "Refused sources.",
        &refusals::of_sources(alloc)?,
    )?;
    push_report(
        alloc,
        &mut out,
        "Refused names.",
        &refusals::of_names(alloc)?,
    )?;
    push_report(
        alloc,
        &mut out,
        "Refused predicates.",
        &refusals::of_predicates(alloc)?,
    )?;
    push_report(
        alloc,
        &mut out,
        "Refused lines.",
        &refusals::of_lines(alloc)?,
    )?;
    variables::push_all(alloc, &mut out)?;
    Ok(out)
}
