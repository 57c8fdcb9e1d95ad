//! The text of a derivation.

ghost use Rattle.std.specs.Prelude.{◌≡◌, ◌++◌, ◌∷◌, OnOk, IfOk, codes};
ghost use Rattle.std.specs.String.{string_bytes};
ghost use Rattle.hs_print.specs.Lists.{each_after};
ghost use Rattle.hs_dtext.specs.Text.{bare, side_parts, end_parts, goal_parts, at_parts, judgement_parts, node_text, node_lines, claim_text, claim_line, claim_lines, all_claim_lines, lines_text, derivation_text, proved_text};

use crate::claims::ClaimLine;
use crate::writer::{
    push_atoms, push_flag, push_formula, push_from, push_opens, push_rule, push_slots,
};
use hs_core::At;
use hs_goal::Goal;
use hs_heap::{Defs, Formula};
use hs_node::{Derivation, Judgement, Node};
use hs_pure::NoMemory;
use std::alloc::{AllocError, Global};

// Adds the parts of a goal up to its right side, each after a semicolon.
fn push_sides(alloc: Global, out: &mut String, defs: &Defs, goal: &Goal) -> Result<(), NoMemory>
    ensures { OnOk result (string_bytes out.new ≡ string_bytes out.old ++ each_after (codes " ; ") bare (side_parts defs.now goal.now)) }
{
    write!(out, " ; used ")?;
    push_atoms(alloc, out, defs, goal.used.as_slice())?;
    write!(out, " ; left ")?;
    push_formula(alloc, out, defs, &goal.left)?;
    write!(out, " ; ")?;
    push_opens(out, goal.opens.as_slice())?;
    write!(out, " ; right ")?;
    push_formula(alloc, out, defs, &goal.right)
}

// Adds the other parts of a goal, and its residue.
fn push_ends(
    alloc: Global,
    out: &mut String,
    defs: &Defs,
    goal: &Goal,
    residue: &Formula,
) -> Result<(), NoMemory>
    ensures { OnOk result (string_bytes out.new ≡ string_bytes out.old ++ each_after (codes " ; ") bare (end_parts defs.now goal.now residue.now)) }
{
    let next = goal.next;
    write!(out, " ; next {next} ; ")?;
    push_flag(out, goal.looked)?;
    write!(out, " ; residue ")?;
    push_formula(alloc, out, defs, residue)
}

// Adds the parts of a goal and its residue, each after a semicolon.
fn push_goal(
    alloc: Global,
    out: &mut String,
    defs: &Defs,
    goal: &Goal,
    residue: &Formula,
) -> Result<(), NoMemory>
    ensures { OnOk result (string_bytes out.new ≡ string_bytes out.old ++ each_after (codes " ; ") bare (goal_parts defs.now goal.now residue.now)) }
{
    push_sides(alloc, out, defs, goal)?;
    push_ends(alloc, out, defs, goal, residue)?;
    Ok(())
}

// Adds the parts of a state, each after a semicolon.
fn push_at(alloc: Global, out: &mut String, defs: &Defs, at: &At) -> Result<(), NoMemory>
    ensures { OnOk result (string_bytes out.new ≡ string_bytes out.old ++ each_after (codes " ; ") bare (at_parts defs.now at.now)) }
{
    let method = at.method;
    let pair = at.pair;
    let point = at.point;
    let next = at.state.next;
    write!(
        out,
        " ; method {method} ; pair {pair} ; point {point} ; slots"
    )?;
    push_slots(out, at.state.slots.as_slice())?;
    write!(out, " ; state ")?;
    push_formula(alloc, out, defs, &at.state.formula)?;
    Ok(write!(out, " ; next {next}")?)
}

fn push_judgement(
    alloc: Global,
    out: &mut String,
    defs: &Defs,
    judgement: &Judgement,
) -> Result<(), NoMemory>
    ensures { OnOk result (string_bytes out.new ≡ string_bytes out.old ++ each_after (codes " ; ") bare (judgement_parts defs.now judgement.now)) }
{
    match judgement {
        Judgement::Shown(pred) => Ok(write!(out, " ; pred {pred}")?),
        Judgement::Entails(goal, residue) => push_goal(alloc, out, defs, goal, residue),
        Judgement::Runs(at) => push_at(alloc, out, defs, at),
    }
}

// Adds the line of a node, by its number.
fn push_node(
    alloc: Global,
    out: &mut String,
    defs: &Defs,
    number: usize,
    node: &Node,
) -> Result<(), NoMemory>
    ensures { OnOk result (string_bytes out.new ≡ string_bytes out.old ++ node_text defs.now number node.now) }
{
    write!(out, "{number} ")?;
    push_rule(alloc, out, &node.rule)?;
    write!(out, " ; ")?;
    push_from(out, node.premises.as_slice())?;
    push_judgement(alloc, out, defs, &node.judgement)
}

// Adds the lines of all nodes, each with its end.
fn push_nodes(alloc: Global, out: &mut String, defs: &Defs, nodes: &[Node]) -> Result<(), NoMemory>
    ensures { OnOk result (string_bytes out.new ≡ string_bytes out.old ++ lines_text (node_lines defs.now 1 nodes.now)) }
{
    for (i, node) in nodes.iter().enumerate() {
        push_node(alloc, out, defs, i + 1, node)?;
        write!(out, "\n")?;
    }
    Ok(())
}

fn push_claim(out: &mut String, number: u32, node: u32) -> Result<(), AllocError>
    ensures { OnOk result (string_bytes out.new ≡ string_bytes out.old ++ claim_text (number, node)) }
{
    write!(out, "claim {number} {node}")
}

// Adds the lines of claims, each with its end.
fn push_claims(out: &mut String, claims: &[(u32, u32)]) -> Result<(), AllocError>
    ensures { OnOk result (string_bytes out.new ≡ string_bytes out.old ++ lines_text (claim_lines claims.now)) }
{
    for claim in claims {
        push_claim(out, claim.0, claim.1)?;
        write!(out, "\n")?;
    }
    Ok(())
}

// Adds the line of a claim that is shown or open.
fn push_claim_line(out: &mut String, line: &ClaimLine) -> Result<(), AllocError>
    ensures { OnOk result (string_bytes out.new ≡ string_bytes out.old ++ claim_line line.now) }
{
    match line {
        ClaimLine::Shown(number, node) => push_claim(out, *number, *node),
        ClaimLine::Open(number, cause) => write!(out, "# claim {number} unknown: {cause}"),
    }
}

// Adds the lines of claims that are shown or open, each with its end.
fn push_claim_lines(out: &mut String, lines: &[ClaimLine]) -> Result<(), AllocError>
    ensures { OnOk result (string_bytes out.new ≡ string_bytes out.old ++ lines_text (all_claim_lines lines.now)) }
{
    for line in lines {
        push_claim_line(out, line)?;
        write!(out, "\n")?;
    }
    Ok(())
}

/// The text of a derivation. A data type or predicate that is not there prints as the empty name.
pub fn write(alloc: Global, defs: &Defs, derivation: &Derivation) -> Result<String, NoMemory>
    ensures text { IfOk result (λ text. string_bytes text ≡ derivation_text defs.now derivation.now) }
{
    let mut out = String::new(alloc);
    write!(out, "derivation 1\n")?;
    push_nodes(alloc, &mut out, defs, derivation.nodes.as_slice())?;
    push_claims(&mut out, derivation.claims.as_slice())?;
    write!(out, "end\n")?;
    Ok(out)
}

/// The text of nodes and of the lines of claims, which stand as they are given. A data type or predicate that is not
/// there prints as the empty name.
pub fn write_proved(
    alloc: Global,
    defs: &Defs,
    nodes: &[Node],
    lines: &[ClaimLine],
) -> Result<String, NoMemory>
    ensures exact { IfOk result (λ text. string_bytes text ≡ proved_text defs.now nodes.now lines.now) }
{
    let mut out = String::new(alloc);
    write!(out, "derivation 1\n")?;
    push_nodes(alloc, &mut out, defs, nodes)?;
    push_claim_lines(&mut out, lines)?;
    write!(out, "end\n")?;
    Ok(out)
}
