//! Elimination and values, compared with the search of a box.
ghost use Rattle.std.specs.Prelude.{◌≡◌, false, IfOk, IsTrue};
ghost use Rattle.hs_pure.specs.Assertion.{assertion_of};
ghost use Rattle.hs_pure.specs.Eval.{has_quantifiers};
ghost use Rattle.hs_pure.specs.Sums.{IsOrdered};
ghost use Rattle.hs_elimination.specs.Normal.{is_simple};

use crate::answers::{X, Y, Z};
use hs_cooper::{eliminate, witness};
use hs_pure::{Pure, Valuation, Var};
use hs_tests_formulas::NoRow;
use sqlite_items::Items;
use std::alloc::Global;

// The most atoms that a call is allowed.
const BUDGET: u64 = 200_000;

fn values(alloc: Global, numbers: &[(Var, i128)]) -> Result<Valuation, NoRow> {
    Ok(Valuation {
        numbers: Items::from_slice(alloc, numbers)?,
        bags: Items::new(alloc),
    })
}

// Whether the formula is true at the numbers.
fn is_true(alloc: Global, p: &Pure, numbers: &[(Var, i128)]) -> Result<bool, NoRow>
    requires { has_quantifiers p.now ≡ false }
{
    Ok(p.eval(&values(alloc, numbers)?)?)
}

// Whether some x from -20 to 20 makes the formula true.
fn works_in_range(alloc: Global, f: &Pure, y: i128, z: i128) -> Result<bool, NoRow>
    requires { has_quantifiers f.now ≡ false }
{
    for x in 0..41u8 {
        if is_true(alloc, f, &[(X, i128::from(x) - 20), (Y, y), (Z, z)])? {
            return Ok(true);
        }
    }
    Ok(false)
}

// Whether the value of x works, or there is none where none works.
fn value_is_right(alloc: Global, f: &Pure, y: i128, z: i128, works: bool) -> Result<bool, NoRow>
    requires simple { IsTrue (is_simple (assertion_of f.now)) }
    requires flat { has_quantifiers f.now ≡ false }
    requires ordered { IsOrdered f.now }
{
    match witness(alloc, X, f, &values(alloc, &[(Y, y), (Z, z)])?, BUDGET) {
        Ok(Some(x)) => is_true(alloc, f, &[(X, x), (Y, y), (Z, z)]),
        Ok(None) => Ok(!works),
        Err(_) => Err(NoRow),
    }
}

// Whether the rest of the formula is true exactly where some x works, and the value of x is right.
fn is_right_at(alloc: Global, f: &Pure, rest: &Pure, y: i128, z: i128) -> Result<bool, NoRow>
    requires simple { IsTrue (is_simple (assertion_of f.now)) }
    requires flat { has_quantifiers f.now ≡ false }
    requires ordered { IsOrdered f.now }
    requires rest { has_quantifiers rest.now ≡ false }
{
    let works = works_in_range(alloc, f, y, z)?;
    let left = is_true(alloc, rest, &[(Y, y), (Z, z)])?;
    Ok(left == works && value_is_right(alloc, f, y, z, works)?)
}

// What is left where x is eliminated.
#[tactic(auto, using(crate::proofs::Flat::flat_result))]
fn without_x(alloc: Global, f: &Pure) -> Result<Pure, NoRow>
    requires simple { IsTrue (is_simple (assertion_of f.now)) }
    requires ordered { IsOrdered f.now }
    ensures { IfOk result (λ p. has_quantifiers p ≡ false) }
{
    match eliminate(alloc, X, f, BUDGET) {
        Ok(rest) => Ok(rest),
        Err(_) => Err(NoRow),
    }
}

/// Whether elimination and values agree with the search at each place of the box.
pub fn agrees(alloc: Global, f: &Pure) -> Result<bool, NoRow>
    requires simple { IsTrue (is_simple (assertion_of f.now)) }
    requires flat { has_quantifiers f.now ≡ false }
    requires ordered { IsOrdered f.now }
{
    let rest = Box::new(alloc, without_x(alloc, f)?)?;
    for y in 0..13u8 {
        for z in 0..13u8 {
            if !is_right_at(alloc, f, &rest, i128::from(y) - 6, i128::from(z) - 6)? {
                return Ok(false);
            }
        }
    }
    Ok(true)
}
