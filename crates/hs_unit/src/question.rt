//! Unit questions.

ghost use Rattle.std.specs.Prelude.{◌≡◌, ◌⊎◌, [], true, None, Some, IfOk, MatchOption};
ghost use Rattle.hs_pure.specs.Assertion.{assertion_of};
ghost use Rattle.hs_pure.specs.Eval.{stack_of};
ghost use Rattle.hs_pure.specs.Stack.{Stack};
ghost use Rattle.hs_pure.specs.Sums.{IsOrdered};
ghost use Rattle.hs_pure.specs.Truth.{TrueAt};
ghost use Rattle.hs_unit.specs.Sides.{forms, comparisons, are_zero, HasWideForm};
ghost use Rattle.hs_unit.specs.Reduction.{all_small, reduced};
ghost use Rattle.hs_unit.specs.Question.{reduction, IsUnitQuestion};
ghost use Rattle.hs_unit.specs.Settling.{clash, are_settled, settlement, verdict, IfNo};
ghost use Rattle.hs_unit.specs.declared.settled.Settled.TheVariants.{Yes};

use crate::Settled;
use crate::reduction::{Reduction, reduced};
use crate::sides::{Kind, are_zero, comparisons, forms};
use crate::values::{denied, is_settled, values};
use hs_cooper_forms::Refusal;
use hs_pure::{Lin, NoMemory, Pure, Valuation};
use sqlite_items::Items;
use std::alloc::Global;

/// Whether `a` implies `b` at all stacks, where that is a unit question, and none where it is not. The terms of their
/// sums are in order. The values of a `No` are numbers, and a variable that they do not name is 0.
/// `NoMemory` comes where there is none.
pub fn unit(alloc: Global, a: &Pure, b: &Pure) -> Result<Option<Settled>, NoMemory>
    requires left_ordered { IsOrdered a.now }
    requires right_ordered { IsOrdered b.now }
    ensures told { IfOk result (λ o. MatchOption o (¬ (IsUnitQuestion (assertion_of a.now) (assertion_of b.now))) (λ _. IsUnitQuestion (assertion_of a.now) (assertion_of b.now))) }
    ensures yes { IfOk result (λ o. o ≡ Some Yes → (s : Stack) → TrueAt s a.now → TrueAt s b.now) }
    ensures no { IfOk result (λ o. IfNo o (λ v. TrueAt (stack_of v) a.now × (¬ (TrueAt (stack_of v) b.now)))) }
    ensures bags { IfOk result (λ o. IfNo o (λ v. v.bags ≡ [])) }
{
    decided(alloc, a, b)
}

// The comparisons of a side, if it has such and none passes 128 bits.
fn side(alloc: Global, p: &Pure) -> Result<Option<Items<(Kind, Lin)>>, NoMemory>
    ensures { IfOk result (λ o. MatchOption o ((comparisons (assertion_of p.now) ≡ None) ⊎ HasWideForm (assertion_of p.now)) (λ cs. comparisons (assertion_of p.now) ≡ Some cs)) }
{
    match comparisons(alloc, p) {
        Ok(side) => Ok(side),
        Err(Refusal::Wide) => Ok(None),
        Err(Refusal::Memory) => Err(NoMemory),
    }
}

// Whether one of the forms is a number other than 0.
fn clash(forms: &[Lin]) -> bool
    ensures { result ≡ clash forms.now }
{
    for f in forms {
        if f.terms.is_empty() && f.constant != 0 {
            return true;
        }
    }
    false
}

// Whether each form is a number as its kind says.
fn are_settled(right: &[(Kind, Lin)]) -> bool
    ensures { result ≡ are_settled right.now }
{
    for c in right {
        if !is_settled(c.0, &c.1) {
            return false;
        }
    }
    true
}

// The answer that a reduction gives.
fn settlement(alloc: Global, r: &Reduction) -> Result<Settled, NoMemory>
    requires left { all_small r.now.taken ≡ true }
    requires right { all_small (forms r.now.right) ≡ true }
    ensures { IfOk result (λ x. x ≡ settlement r.now) }
{
    if clash(r.taken.as_slice()) || are_settled(r.right.as_slice()) {
        return Ok(Settled::Yes);
    }
    let e = denied(r.right.as_slice());
    Ok(Settled::No(Valuation {
        numbers: values(alloc, e, r.pivots.as_slice(), r.taken.as_slice())?,
        bags: Items::new(alloc),
    }))
}

// The answer, where the question is a unit question.
fn decided(alloc: Global, a: &Pure, b: &Pure) -> Result<Option<Settled>, NoMemory>
    requires left_ordered { IsOrdered a.now }
    requires right_ordered { IsOrdered b.now }
    ensures { IfOk result (λ o. o ≡ verdict (assertion_of a.now) (assertion_of b.now)) }
{
    let Some(left) = side(alloc, a)? else {
        return Ok(None);
    };
    let Some(right) = side(alloc, b)? else {
        return Ok(None);
    };
    if !are_zero(left.as_slice()) {
        return Ok(None);
    }
    let left = forms(alloc, left.as_slice())?;
    let Some(r) = reduced(alloc, left, right)? else {
        return Ok(None);
    };
    Ok(Some(settlement(alloc, &r)?))
}
