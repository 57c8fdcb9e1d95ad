//! The facts of a formula: its conjuncts that are no disjunctions.

ghost use Rattle.std.specs.Prelude.{IfOk};
ghost use Rattle.std.specs.List.{All};
ghost use Rattle.hs_pure.specs.Stack.{Stack};
ghost use Rattle.hs_pure.specs.Truth.{TrueAt};
ghost use Rattle.hs_decide.specs.Asking.{IsAskable};

use hs_pure::{NoMemory, Pure};
use hs_reduction::bags_plain_is_of_assertion;
use sqlite_items::{Boxed, Items};
use std::alloc::Global;

/// The conjunction of the facts of a formula, which follows from it.
pub(crate) fn facts(alloc: Global, p: &Pure) -> Result<Boxed<Pure>, NoMemory>
    requires asked { IsAskable p.now }
    ensures follows { IfOk result (λ r. (s : Stack) → TrueAt s p.now → TrueAt s r) }
    ensures asked { IfOk result IsAskable }
{
    bags_plain_is_of_assertion();
    let members = with_facts(alloc, p, Items::new(alloc))?;
    Ok(Boxed::new(alloc, Pure::And(members))?)
}

// Formulas, and after them the facts of one more.
#[cycle(facts)]
fn with_facts(alloc: Global, p: &Pure, all: Items<Pure>) -> Result<Items<Pure>, NoMemory>
    ensures follow { IfOk result (λ r. (s : Stack) → All (TrueAt s) all → TrueAt s p.now → All (TrueAt s) r) }
    ensures asked { IfOk result (λ r. All IsAskable all → IsAskable p.now → All IsAskable r) }
{
    match p {
        Pure::And(members) => with_all_facts(alloc, members.as_slice(), all),
        Pure::Or(_) => Ok(all),
        _ => with_copy(alloc, p, all),
    }
}

// Formulas, and after them the facts of some more.
#[cycle(facts)]
fn with_all_facts(alloc: Global, ps: &[Pure], all: Items<Pure>) -> Result<Items<Pure>, NoMemory>
    ensures follow { IfOk result (λ r. (s : Stack) → All (TrueAt s) all → All (TrueAt s) ps.now → All (TrueAt s) r) }
    ensures asked { IfOk result (λ r. All IsAskable all → All IsAskable ps.now → All IsAskable r) }
{
    let mut now = all;
    for p in ps {
        now = with_facts(alloc, p, now)?;
    }
    Ok(now)
}

// Formulas, and after them one more.
fn with_copy(alloc: Global, p: &Pure, all: Items<Pure>) -> Result<Items<Pure>, NoMemory>
    ensures follow { IfOk result (λ r. (s : Stack) → All (TrueAt s) all → TrueAt s p.now → All (TrueAt s) r) }
    ensures asked { IfOk result (λ r. All IsAskable all → IsAskable p.now → All IsAskable r) }
{
    let mut now = all;
    now.push(p.copy(alloc)?)?;
    Ok(now)
}
