//! Questions whose bag equations are put in place before they are reduced.

ghost use Rattle.std.specs.Prelude.{◌≡◌, ◌≤◌, ◌<◌, ◌^◌, IfOk, IsTrue};
ghost use Rattle.hs_pure.specs.Eval.{stack_of};
ghost use Rattle.hs_pure.specs.Occurs.{is_bags_plain, top_of};
ghost use Rattle.hs_pure.specs.Stack.{Stack};
ghost use Rattle.hs_pure.specs.Sums.{IsOrdered};
ghost use Rattle.hs_pure.specs.Truth.{TrueAt};
ghost use Rattle.hs_equations.specs.Finding.{IfRefuted};
ghost use Rattle.hs_equations.specs.declared.finding.Finding.TheVariants.{Implied};
ghost use Rattle.hs_decide.specs.Answering.{IsAnswer};
ghost use Rattle.hs_decide.specs.Reduced.{IsReducedQuestion};

use crate::confirm::is_true;
use crate::counting::reduction;
use crate::formula::falsehood;
use crate::rows::by_equations;
use hs_bag::Stop;
use hs_bag_equations::{InPlace, completed, placed};
use hs_counts::{RebuildError, Reduced, rebuild_bags};
use hs_equations::Finding;
use hs_pure::{NoMemory, Pure, Valuation};
use hs_reduction::{
    bagless_has_no_bags, bagless_is_exact, bagless_is_ordered, bags_plain_is_of_assertion,
};
use std::alloc::Global;

// What is found of the question whether a formula has no solution: `Implied` where it has none, `Refuted` with one that
// was tried. Nothing is said of `Open`.
pub(crate) fn found(alloc: Global, question: &Pure, atoms: u64) -> Result<Finding, NoMemory>
    requires plain { IsTrue (is_bags_plain question.now) }
    requires ordered { IsOrdered question.now }
    requires low { top_of question.now < 2 ^ 31 }
    requires small { atoms ≤ 2 ^ 30 }
    ensures implied { IfOk result (λ r. r ≡ Implied → (s : Stack) → ¬ (TrueAt s question.now)) }
    ensures refuted { IfOk result (λ r. IfRefuted r (λ v. TrueAt (stack_of v) question.now)) }
{
    let in_place = placed(alloc, question, atoms)?;
    match reduction(alloc, in_place.pure.get(), atoms) {
        Ok(reduced) => reduced_found(alloc, question, &in_place, reduced.get(), atoms),
        Err(Stop::Memory) => Err(NoMemory),
        Err(_) => Ok(Finding::Open),
    }
}

// The same by the reduction of the formula with its equations in place.
fn reduced_found(
    alloc: Global,
    question: &Pure,
    in_place: &InPlace,
    reduced: &Reduced,
    atoms: u64,
) -> Result<Finding, NoMemory>
    requires follows { (s : Stack) → TrueAt s question.now → TrueAt s in_place.now.pure }
    requires reduced { IsReducedQuestion in_place.now.pure reduced.now }
    requires small { atoms ≤ 2 ^ 30 }
    ensures implied { IfOk result (λ r. r ≡ Implied → (s : Stack) → ¬ (TrueAt s question.now)) }
    ensures refuted { IfOk result (λ r. IfRefuted r (λ v. TrueAt (stack_of v) question.now)) }
{
    bagless_is_exact();
    bagless_has_no_bags();
    bagless_is_ordered();
    bags_plain_is_of_assertion();
    let never = falsehood(alloc)?;
    match by_equations(alloc, &reduced.pure, never.get(), atoms)? {
        Finding::Implied => Ok(Finding::Implied),
        Finding::Refuted(values) => tried(alloc, question, in_place, reduced, &values),
        Finding::Open => Ok(Finding::Open),
    }
}

// The values that solve the reduction, tried on the question.
fn tried(
    alloc: Global,
    question: &Pure,
    in_place: &InPlace,
    reduced: &Reduced,
    values: &Valuation,
) -> Result<Finding, NoMemory>
    ensures implied { IfOk result (λ r. ¬ (r ≡ Implied)) }
    ensures refuted { IfOk result (λ r. IfRefuted r (λ v. TrueAt (stack_of v) question.now)) }
{
    match completed_values(alloc, in_place, reduced, values)? {
        Some(all) => Ok(confirmed(question, all)),
        None => Ok(Finding::Open),
    }
}

// The values, if they are seen to make the question true.
fn confirmed(question: &Pure, values: Valuation) -> Finding
    ensures implied { ¬ (result ≡ Implied) }
    ensures refuted { IfRefuted result (λ v. TrueAt (stack_of v) question.now) }
{
    if is_true(question, &values) {
        Finding::Refuted(values)
    } else {
        Finding::Open
    }
}

// Values with those of the variables that were put in place, if no number passes 128 bits.
fn completed_values(
    alloc: Global,
    in_place: &InPlace,
    reduced: &Reduced,
    values: &Valuation,
) -> Result<Option<Valuation>, NoMemory> {
    match rebuild_bags(alloc, reduced.counts.as_slice(), values) {
        Ok(rebuilt) => completed(alloc, in_place, &rebuilt),
        Err(RebuildError::Wide) => Ok(None),
        Err(RebuildError::Memory) => Err(NoMemory),
    }
}
