//! Examining a question.

ghost use Rattle.std.specs.Prelude.{◌≡◌, false, IfOk};
ghost use Rattle.hs_pure.specs.Occurs.{has_bags};
ghost use Rattle.hs_pure.specs.Stack.{Stack};
ghost use Rattle.hs_pure.specs.Sums.{IsOrdered};
ghost use Rattle.hs_pure.specs.Truth.{TrueAt};
ghost use Rattle.hs_equations.specs.Finding.{IfRefuted, IsCounter};
ghost use Rattle.hs_equations.specs.declared.finding.Finding.TheVariants.{Implied};

use crate::claim::{State, assume};
use crate::finding::Finding;
use crate::halt::Halt;
use crate::rows::Rows;
use crate::solve::solve;
use hs_pure::{NoMemory, Pure};
use sqlite_items::Items;
use std::alloc::Global;

// The splits that may stand in one another.
const DEPTH: u32 = 64;

// What is found of the question.
fn found<'a>(alloc: Global, a: &'a Pure, b: &'a Pure, steps: u64) -> Result<Finding, Halt>
    requires left_bags { has_bags a.now ≡ false }
    requires right_bags { has_bags b.now ≡ false }
    requires left_ordered { IsOrdered a.now }
    requires right_ordered { IsOrdered b.now }
    ensures implied { IfOk result (λ r. r ≡ Implied → (s : Stack) → TrueAt s a.now → TrueAt s b.now) }
    ensures refuted { IfOk result (λ r. IfRefuted r (IsCounter a.now b.now)) }
{
    let mut left = steps;
    let start = State {
        rows: Rows::new(alloc),
        cases: Items::new(alloc),
    };
    let given = assume(alloc, start, a, true)?;
    let state = assume(alloc, given, b, false)?;
    solve(alloc, a, b, state, DEPTH, &mut left)
}

/// Whether `a` implies `b` at all stacks, as far as it is seen in `steps` steps: a step is a row that is taken in, two
/// rows that are joined, a claim that is tried, or some rows that are looked at. Neither has bag literals, and the
/// terms of their sums are in order.
///
/// `Implied` comes only where it does, and `Refuted` only with values that make `a` true and `b` false. Nothing
/// is said of `Open`: it comes where a number passes 128 bits, the steps are spent, or the formulas are not
/// simple enough. `NoMemory` comes where there is none.
pub fn examine<'a>(alloc: Global, a: &'a Pure, b: &'a Pure, steps: u64) -> Result<Finding, NoMemory>
    requires left_bags { has_bags a.now ≡ false }
    requires right_bags { has_bags b.now ≡ false }
    requires left_ordered { IsOrdered a.now }
    requires right_ordered { IsOrdered b.now }
    ensures implied { IfOk result (λ r. r ≡ Implied → (s : Stack) → TrueAt s a.now → TrueAt s b.now) }
    ensures refuted { IfOk result (λ r. IfRefuted r (IsCounter a.now b.now)) }
{
    match found(alloc, a, b, steps) {
        Ok(finding) => Ok(finding),
        Err(Halt::Memory) => Err(NoMemory),
        Err(Halt::Spent) => Ok(Finding::Open),
    }
}
