//! The public calls on formulas and valuations.

ghost use Rattle.std.specs.Prelude.{◌≡◌, Some, None, IfOk};
ghost use Rattle.std.specs.String.{string_bytes};
ghost use Rattle.hs_print.specs.Formula.{formula_text};
ghost use Rattle.hs_print.specs.Pure.{pure_text};
ghost use Rattle.hs_print.specs.Valuation.{valuation_text};
ghost use Rattle.hs_print.specs.Variable.{named_text};

use crate::disjunct::push_formula;
use crate::place::Place;
use crate::pure_text::push_pure;
use crate::values::push_valuation;
use crate::variables::push_named;
use hs_heap::{Defs, Formula};
use hs_numbering::Names;
use hs_pure::{NoMemory, Pure, Valuation, Var};
use std::alloc::Global;

/// The text of a formula under the source names of its claim.
pub fn formula(alloc: Global, f: &Formula, names: &Names, defs: &Defs) -> Result<String, NoMemory>
    ensures { IfOk result (λ text. string_bytes text ≡ formula_text defs.now (Some names.now) f.now) }
{
    let mut out = String::new(alloc);
    push_formula(&mut out, defs, Some(names), f)?;
    Ok(out)
}

/// The text of a pure formula, by itself, under the source names of its claim.
pub fn pure(alloc: Global, p: &Pure, names: &Names) -> Result<String, NoMemory>
    ensures { IfOk result (λ text. string_bytes text ≡ pure_text (Some names.now) p.now) }
{
    let mut out = String::new(alloc);
    push_pure(&mut out, Some(names), Place::Alone, p)?;
    Ok(out)
}

/// The text of a formula in numbered form.
pub fn numbered_formula(alloc: Global, f: &Formula, defs: &Defs) -> Result<String, NoMemory>
    ensures { IfOk result (λ text. string_bytes text ≡ formula_text defs.now None f.now) }
{
    let mut out = String::new(alloc);
    push_formula(&mut out, defs, None, f)?;
    Ok(out)
}

/// The text of a pure formula, by itself, in numbered form.
pub fn numbered_pure(alloc: Global, p: &Pure) -> Result<String, NoMemory>
    ensures { IfOk result (λ text. string_bytes text ≡ pure_text None p.now) }
{
    let mut out = String::new(alloc);
    push_pure(&mut out, None, Place::Alone, p)?;
    Ok(out)
}

/// The text of a variable: its source name where no lesser number has that name, else its number.
pub fn variable(alloc: Global, v: Var, names: &Names) -> Result<String, NoMemory>
    ensures { IfOk result (λ text. string_bytes text ≡ named_text names.now v) }
{
    let mut out = String::new(alloc);
    push_named(&mut out, names, v)?;
    Ok(out)
}

/// The text of the values at `v` of those variables that have a source name, in the order of the list.
pub fn valuation(
    alloc: Global,
    of: &[Var],
    v: &Valuation,
    names: &Names,
) -> Result<String, NoMemory>
    ensures { IfOk result (λ text. string_bytes text ≡ valuation_text names.now of.now v.now) }
{
    let mut out = String::new(alloc);
    push_valuation(alloc, &mut out, of, v, names)?;
    Ok(out)
}
