//! What rows of equations find of a question on numbers.

ghost use Rattle.std.specs.Prelude.{◌≡◌, ◌≤◌, ◌^◌, false, IfOk};
ghost use Rattle.hs_pure.specs.Assertion.{assertion_of};
ghost use Rattle.hs_pure.specs.Occurs.{has_bags};
ghost use Rattle.hs_pure.specs.Stack.{Stack};
ghost use Rattle.hs_pure.specs.Sums.{IsOrdered};
ghost use Rattle.hs_pure.specs.Truth.{TrueAt};
ghost use Rattle.hs_elimination.specs.Decided.{without_quantifiers};
ghost use Rattle.hs_equations.specs.Finding.{IfRefuted, IsCounter};
ghost use Rattle.hs_equations.specs.declared.finding.Finding.TheVariants.{Implied};

use crate::confirm::has_quantifiers;
use hs_cooper::Stop;
use hs_equations::{Finding, examine};
use hs_pure::{NoMemory, Pure};
use hs_quantifiers::without_quantifiers;
use std::alloc::Global;

/// Both sides of a question.
#[derive(Debug, Drop)]
struct Question {
    left: Pure,
    right: Pure,
}

/// Whether `a` implies `b`, as far as it is seen in so many steps once the quantifiers are eliminated. Neither has bag
/// literals, and the terms of their sums are in order.
pub(crate) fn by_equations(
    alloc: Global,
    a: &Pure,
    b: &Pure,
    steps: u64,
) -> Result<Finding, NoMemory>
    requires left_bags { has_bags a.now ≡ false }
    requires right_bags { has_bags b.now ≡ false }
    requires left_ordered { IsOrdered a.now }
    requires right_ordered { IsOrdered b.now }
    requires small { steps ≤ 2 ^ 30 }
    ensures implied { IfOk result (λ r. r ≡ Implied → (s : Stack) → TrueAt s a.now → TrueAt s b.now) }
    ensures refuted { IfOk result (λ r. IfRefuted r (IsCounter a.now b.now)) }
{
    if !has_quantifiers(a) && !has_quantifiers(b) {
        return examine(alloc, a, b, steps);
    }
    match sides(alloc, a, b, steps) {
        Ok(sides) => examine(alloc, &sides.left, &sides.right, steps),
        Err(Stop::Memory) => Err(NoMemory),
        Err(_) => examine(alloc, a, b, steps),
    }
}

// Both sides without quantifiers.
fn sides(alloc: Global, a: &Pure, b: &Pure, atoms: u64) -> Result<Question, Stop>
    requires left_bags { has_bags a.now ≡ false }
    requires right_bags { has_bags b.now ≡ false }
    requires left_ordered { IsOrdered a.now }
    requires right_ordered { IsOrdered b.now }
    requires small { atoms ≤ 2 ^ 30 }
    ensures left { IfOk result (λ r. assertion_of r.left ≡ without_quantifiers (assertion_of a.now)) }
    ensures right { IfOk result (λ r. assertion_of r.right ≡ without_quantifiers (assertion_of b.now)) }
{
    let left = without_quantifiers(alloc, a, atoms)?;
    let right = without_quantifiers(alloc, b, atoms)?;
    Ok(Question { left, right })
}
