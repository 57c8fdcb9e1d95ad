//! The way back to the formulas of the layers below.

ghost use Rattle.std.specs.Prelude.{◌≡◌, map, pos, FitsSigned, IfOk, IsErrOf};
ghost use mir.Syntax.{w128};
ghost use Rattle.std.specs.List.{Contains};
ghost use Rattle.hs_pure.specs.Assertion.{assertion_of, divides};
ghost use Rattle.hs_elimination.specs.Form.{assertion, IsWide};
ghost use Rattle.hs_cooper_forms.specs.Reading.{form_of, literal_form};
ghost use Rattle.hs_cooper_forms.specs.declared.refusal.Refusal.TheVariants.{Wide};
ghost use Rattle.hs_cooper_forms.specs.declared.nnf.Nnf.{Nnf};

use hs_cooper_forms::{Connective, Literal, Nnf, Refusal, Relation, constant};
use hs_pure::{Lin, Pure};
use sqlite_items::{Boxed, Items};
use std::alloc::Global;

fn divisibility(d: u128, sum: Lin) -> Result<Pure, Refusal>
    ensures form { IfOk result (λ p. assertion_of p ≡ divides (pos d) sum) }
    ensures wide { IsErrOf result Wide → ¬ (FitsSigned w128 (pos d)) }
{
    match i128::try_from(d) {
        Ok(d) => Ok(Pure::Divides(d, sum)),
        Err(_) => Err(Refusal::Wide),
    }
}

fn literal(alloc: Global, l: &Literal) -> Result<Pure, Refusal>
    ensures form { IfOk result (λ p. assertion_of p ≡ assertion (literal_form l.now)) }
    ensures wide { IsErrOf result Wide → IsWide (literal_form l.now) }
{
    let sum = l.sum.copy(alloc)?;
    match l.relation {
        Relation::Positive => Ok(Pure::Lt(constant(alloc, 0), sum)),
        Relation::Multiple(d) => divisibility(d, sum),
        Relation::NoMultiple(d) => {
            let p = divisibility(d, sum)?;
            Ok(Pure::Not(Boxed::new(alloc, p)?))
        }
    }
}

// The same formula. A list of one member is that member.
#[cycle(back)]
pub(crate) fn to_pure(alloc: Global, f: &Nnf) -> Result<Pure, Refusal>
    ensures form { IfOk result (λ p. assertion_of p ≡ assertion (form_of f.now)) }
    ensures wide { IsErrOf result Wide → IsWide (form_of f.now) }
{
    match f {
        Nnf::Truth(true) => Ok(Pure::And(Items::new(alloc))),
        Nnf::Truth(false) => Ok(Pure::Or(Items::new(alloc))),
        Nnf::Literal(l) => literal(alloc, l),
        Nnf::Joined(c, fs) => {
            let mut members = to_pures(alloc, fs.as_slice())?;
            if members.len() == 1 {
                return Ok(members.remove(0));
            }
            match c {
                Connective::And => Ok(Pure::And(members)),
                Connective::Or => Ok(Pure::Or(members)),
            }
        }
    }
}

#[cycle(back)]
fn to_pures(alloc: Global, fs: &[Nnf]) -> Result<Items<Pure>, Refusal>
    ensures forms { IfOk result (λ ps. map assertion_of ps ≡ map (λ f. assertion (form_of f)) fs.now) }
    ensures wide { IsErrOf result Wide → ((f : Nnf) × (Contains fs.now f × IsWide (form_of f))) }
{
    let mut members = Items::new(alloc);
    for f in fs {
        let member = to_pure(alloc, f)?;
        members.push(member)?;
    }
    Ok(members)
}
