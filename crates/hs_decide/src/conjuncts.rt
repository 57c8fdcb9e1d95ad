//! What is seen of a question: at first as a whole, in few steps, and then by each conjunct of its right side, at first from
//! the facts of its left side alone.

ghost use Rattle.std.specs.Prelude.{◌≡◌, ◌≤◌, ◌^◌, IfOk};
ghost use Rattle.std.specs.List.{All};
ghost use Rattle.hs_pure.specs.Eval.{stack_of};
ghost use Rattle.hs_pure.specs.Stack.{Stack};
ghost use Rattle.hs_pure.specs.Truth.{TrueAt};
ghost use Rattle.hs_equations.specs.Finding.{IfRefuted, IsCounter};
ghost use Rattle.hs_equations.specs.declared.finding.Finding.TheVariants.{Implied};
ghost use Rattle.hs_decide.specs.Asking.{IsAskable};

use crate::facts::facts;
use crate::formula::counterexample;
use crate::placing::found;
use crate::rows::by_equations;
use hs_equations::Finding;
use hs_pure::{NoMemory, Pure};
use hs_reduction::bags_plain_is_of_assertion;
use hs_truth::plain_truth_is_decided;
use std::alloc::Global;

// The steps in which a question is looked at as a whole.
const FEW: u64 = 4_096;

/// Whether `a` implies `b`, as far as it is seen. Nothing is said of `Open`.
pub(crate) fn seen(alloc: Global, a: &Pure, b: &Pure, atoms: u64) -> Result<Finding, NoMemory>
    requires left { IsAskable a.now }
    requires right { IsAskable b.now }
    requires small { atoms ≤ 2 ^ 30 }
    ensures implied { IfOk result (λ r. r ≡ Implied → (s : Stack) → TrueAt s a.now → TrueAt s b.now) }
    ensures refuted { IfOk result (λ r. IfRefuted r (IsCounter a.now b.now)) }
{
    match seen_whole(alloc, a, b, atoms.min(FEW))? {
        Finding::Open => seen_by_conjuncts(alloc, a, b, atoms),
        found => Ok(found),
    }
}

// The same by each conjunct of `b`.
fn seen_by_conjuncts(alloc: Global, a: &Pure, b: &Pure, atoms: u64) -> Result<Finding, NoMemory>
    requires left { IsAskable a.now }
    requires right { IsAskable b.now }
    requires small { atoms ≤ 2 ^ 30 }
    ensures implied { IfOk result (λ r. r ≡ Implied → (s : Stack) → TrueAt s a.now → TrueAt s b.now) }
    ensures refuted { IfOk result (λ r. IfRefuted r (IsCounter a.now b.now)) }
{
    match b {
        Pure::And(members) => seen_each(alloc, a, members.as_slice(), atoms),
        _ => seen_by_facts(alloc, a, b, atoms),
    }
}

// Whether `a` implies each of the formulas.
fn seen_each(alloc: Global, a: &Pure, bs: &[Pure], atoms: u64) -> Result<Finding, NoMemory>
    requires left { IsAskable a.now }
    requires right { All IsAskable bs.now }
    requires small { atoms ≤ 2 ^ 30 }
    ensures implied { IfOk result (λ r. r ≡ Implied → (s : Stack) → TrueAt s a.now → All (TrueAt s) bs.now) }
    ensures refuted { IfOk result (λ r. IfRefuted r (λ v. TrueAt (stack_of v) a.now × (¬ (All (TrueAt (stack_of v)) bs.now)))) }
{
    let mut open = false;
    for b in bs {
        match seen_by_facts(alloc, a, b, atoms)? {
            Finding::Implied => {}
            Finding::Refuted(values) => return Ok(Finding::Refuted(values)),
            Finding::Open => open = true,
        }
    }
    if open {
        Ok(Finding::Open)
    } else {
        Ok(Finding::Implied)
    }
}

// Whether `a` implies `b`: whether its facts do, or else itself.
fn seen_by_facts(alloc: Global, a: &Pure, b: &Pure, atoms: u64) -> Result<Finding, NoMemory>
    requires left { IsAskable a.now }
    requires right { IsAskable b.now }
    requires small { atoms ≤ 2 ^ 30 }
    ensures implied { IfOk result (λ r. r ≡ Implied → (s : Stack) → TrueAt s a.now → TrueAt s b.now) }
    ensures refuted { IfOk result (λ r. IfRefuted r (IsCounter a.now b.now)) }
{
    let known = facts(alloc, a)?;
    match seen_whole(alloc, known.get(), b, atoms)? {
        Finding::Implied => Ok(Finding::Implied),
        _ => seen_whole(alloc, a, b, atoms),
    }
}

// Whether `a` implies `b`, in one question: by rows of equations, where there are no bags, or else by the counts of bags.
fn seen_whole(alloc: Global, a: &Pure, b: &Pure, steps: u64) -> Result<Finding, NoMemory>
    requires left { IsAskable a.now }
    requires right { IsAskable b.now }
    requires small { steps ≤ 2 ^ 30 }
    ensures implied { IfOk result (λ r. r ≡ Implied → (s : Stack) → TrueAt s a.now → TrueAt s b.now) }
    ensures refuted { IfOk result (λ r. IfRefuted r (IsCounter a.now b.now)) }
{
    if a.has_bags() || b.has_bags() {
        seen_by_counts(alloc, a, b, steps)
    } else {
        by_equations(alloc, a, b, steps)
    }
}

// The same by the counts of bags.
fn seen_by_counts(alloc: Global, a: &Pure, b: &Pure, steps: u64) -> Result<Finding, NoMemory>
    requires left { IsAskable a.now }
    requires right { IsAskable b.now }
    requires small { steps ≤ 2 ^ 30 }
    ensures implied { IfOk result (λ r. r ≡ Implied → (s : Stack) → TrueAt s a.now → TrueAt s b.now) }
    ensures refuted { IfOk result (λ r. IfRefuted r (IsCounter a.now b.now)) }
{
    bags_plain_is_of_assertion();
    plain_truth_is_decided();
    let question = counterexample(alloc, a, b)?;
    found(alloc, question.get(), steps)
}
