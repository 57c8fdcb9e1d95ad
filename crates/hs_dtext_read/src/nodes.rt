//! Nodes by the parts of their lines.

ghost use Rattle.std.specs.Prelude.{◌≡◌};
ghost use Rattle.hs_line.specs.Pieces.{AreShort};
ghost use Rattle.hs_line.specs.Steps.{ReadsOn};
ghost use Rattle.hs_dtext.specs.Parts as spec;

use crate::parts::{
    flag_after, formula_after, heap_after, no_more, nothing_after, number_after, numbers_after,
    slots_after, variables_after,
};
use crate::rules::head;
use hs_core::{At, State};
use hs_dtext::Body;
use hs_goal::Goal;
use hs_heap::Defs;
use hs_line::{Fault, Pieces, Stop};
use hs_node::{Judgement, Node, Rule};
use sqlite_items::{Boxed, Items};
use std::alloc::Global;

fn shown_body(alloc: Global, parts: &mut Pieces<'_>) -> Result<Body, Stop>
    requires short { AreShort parts.old }
    ensures { ReadsOn (spec.shown_body parts.old) result parts.new }
{
    nothing_after(parts, b"from")?;
    let pred = number_after(parts, b"pred")?;
    no_more(parts)?;
    Ok(Body {
        premises: Items::new(alloc),
        judgement: Judgement::Shown(pred),
    })
}

fn entails_body(alloc: Global, defs: &Defs, parts: &mut Pieces<'_>) -> Result<Body, Stop>
    requires short { AreShort parts.old }
    ensures { ReadsOn (spec.entails_body defs.now parts.old) result parts.new }
{
    let premises = numbers_after(alloc, parts, b"from")?;
    let used = heap_after(alloc, defs, parts, b"used")?;
    let left = formula_after(alloc, defs, parts, b"left")?;
    let opens = variables_after(alloc, parts, b"opens")?;
    let right = formula_after(alloc, defs, parts, b"right")?;
    let next = number_after(parts, b"next")?;
    let looked = flag_after(parts, b"looked")?;
    let residue = formula_after(alloc, defs, parts, b"residue")?;
    no_more(parts)?;
    let goal = Goal {
        used,
        left,
        opens,
        right,
        next,
        looked,
    };
    Ok(Body {
        premises,
        judgement: Judgement::Entails(goal, residue),
    })
}

fn runs_body(alloc: Global, defs: &Defs, parts: &mut Pieces<'_>) -> Result<Body, Stop>
    requires short { AreShort parts.old }
    ensures { ReadsOn (spec.runs_body defs.now parts.old) result parts.new }
{
    let premises = numbers_after(alloc, parts, b"from")?;
    let method = number_after(parts, b"method")?;
    let pair = number_after(parts, b"pair")?;
    let point = number_after(parts, b"point")?;
    let slots = slots_after(alloc, parts, b"slots")?;
    let formula = formula_after(alloc, defs, parts, b"state")?;
    let next = number_after(parts, b"next")?;
    no_more(parts)?;
    let state = State {
        slots,
        formula,
        next,
    };
    Ok(Body {
        premises,
        judgement: Judgement::Runs(At {
            method,
            pair,
            point,
            state,
        }),
    })
}

fn body_by(alloc: Global, defs: &Defs, rule: &Rule, parts: &mut Pieces<'_>) -> Result<Body, Stop>
    requires short { AreShort parts.old }
    ensures { ReadsOn (spec.body_by defs.now rule.now parts.old) result parts.new }
{
    match rule {
        Rule::Inv => shown_body(alloc, parts),
        Rule::E(_) => entails_body(alloc, defs, parts),
        Rule::P(_) => runs_body(alloc, defs, parts),
    }
}

fn rule_part(alloc: Global, number: u32, parts: &mut Pieces<'_>) -> Result<Boxed<Rule>, Stop>
    requires short { AreShort parts.old }
    ensures exact { ReadsOn (spec.rule_part number parts.old) result parts.new }
    ensures short { AreShort parts.new }
{
    let Some(text) = parts.next() else {
        return Err(Stop::Fault(Fault::Word));
    };
    Ok(Boxed::new(alloc, head(alloc, number, text)?)?)
}

/// The node of this number whose line has these parts.
pub fn node(alloc: Global, defs: &Defs, number: u32, parts: &mut Pieces<'_>) -> Result<Node, Stop>
    requires short { AreShort parts.old }
    ensures { ReadsOn (spec.node defs.now number parts.old) result parts.new }
{
    let rule = rule_part(alloc, number, parts)?;
    let body = body_by(alloc, defs, rule.get(), parts)?;
    Ok(Node {
        judgement: body.judgement,
        rule: rule.into_inner(),
        premises: body.premises,
    })
}
