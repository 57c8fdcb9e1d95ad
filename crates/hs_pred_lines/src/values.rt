//! The printed values at which an invariant fails.

ghost use Rattle.std.specs.Prelude.{◌≡◌, ◌++◌, ◌≤◌, ◌-◌, ◌∷◌, [], Some, IfOk, OnOk, filter};
ghost use Rattle.hs_heap.specs.Meaning.{pred_at};
ghost use Rattle.hs_heap.specs.Sound.{IsSound};
ghost use Rattle.hs_pred_lines.specs.Values as spec;
ghost use Rattle.hs_pred_lines.specs.Values.{both_kinds, passing_to};

use hs_heap::{Defs, PredDef};
use hs_inv::premise;
use hs_norm::Names;
use hs_print::valuation;
use hs_pure::{NoMemory, Pure, Valuation, Var};
use hs_text::Text;
use std::alloc::Global;

// Whether a variable is free in a question.
fn is_asked(left: &Pure, right: &Pure, v: Var) -> bool
    ensures { result ≡ spec.is_asked left.now right.now v }
{
    left.has(v) || right.has(v)
}

// Adds a variable, where it is free in the question.
fn push_asked(vars: &mut Vec<Var>, left: &Pure, right: &Pure, v: Var) -> Result<(), NoMemory>
    ensures { OnOk result (vars.new.items ≡ vars.old.items ++ filter (spec.is_asked left.now right.now) (v ∷ [])) }
{
    if is_asked(left, right, v) {
        vars.push(v)?;
    }
    Ok(())
}

// Adds both variables of a number, where they are free in the question.
fn push_both(vars: &mut Vec<Var>, left: &Pure, right: &Pure, number: u32) -> Result<(), NoMemory>
    ensures { OnOk result (vars.new.items ≡ vars.old.items ++ filter (spec.is_asked left.now right.now) (both_kinds number)) }
{
    push_asked(vars, left, right, Var { number, bag: false })?;
    push_asked(vars, left, right, Var { number, bag: true })
}

/// The free variables of a question with numbers below `next`, by rising number.
pub fn asked_below(
    alloc: Global,
    left: &Pure,
    right: &Pure,
    next: u32,
) -> Result<Vec<Var>, NoMemory>
    ensures { IfOk result (λ vars. vars.items ≡ passing_to (spec.is_asked left.now right.now) (next - 1)) }
{
    let mut vars = Vec::new(alloc);
    for number in 1..next {
        push_both(&mut vars, left, right, number)?;
    }
    Ok(vars)
}

/// The printed values of the variables that have a source name and are free in the question whether the invariant
/// of a predicate, by number from 1, follows.
pub fn values_text(
    alloc: Global,
    defs: &Defs,
    pred: u32,
    p: &PredDef,
    names: &Names,
    v: &Valuation,
) -> Result<Text, NoMemory>
    requires sound { IsSound defs.now }
    requires there { pred_at defs.now pred ≡ Some p.now }
    ensures { IfOk result (λ text. text ≡ spec.values_text defs.now p.now names.now v.now) }
{
    // On the heap, so that it is dropped by one call and not case by case.
    let premise = Box::new(alloc, premise(alloc, defs, pred, p)?)?;
    let shown = asked_below(alloc, &premise, &p.inv, p.next)?;
    Ok(Text::new(valuation(alloc, &shown, v, names)?))
}
