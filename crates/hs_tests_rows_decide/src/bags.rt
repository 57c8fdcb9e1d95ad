//! Questions whose answers are tried: at the values of a `no`, and by the search of small bags.

ghost use Rattle.std.specs.Prelude.{◌≡◌, ◌≤◌, ◌^◌, false};
ghost use Rattle.hs_pure.specs.Eval.{has_quantifiers};

use crate::answers::{X, Y, answered};
use hs_decide::Answer;
use hs_pure::{Pure, Valuation, Var};
use hs_tests_formulas::{NoRow, is_flat};
use sqlite_items::Items;
use std::alloc::Global;

const S: Var = Var {
    number: 3,
    bag: true,
};

const T: Var = Var {
    number: 4,
    bag: true,
};

// The bags that have 0 and 1 at most twice each.
const BAGS: [&[(i128, i128)]; 9] = [
    &[],
    &[(1, 1)],
    &[(1, 2)],
    &[(0, 1)],
    &[(0, 1), (1, 1)],
    &[(0, 1), (1, 2)],
    &[(0, 2)],
    &[(0, 2), (1, 1)],
    &[(0, 2), (1, 2)],
];

// Whether the values make the first formula true and the second false.
fn is_counter(left: &Pure, right: &Pure, v: &Valuation) -> Result<bool, NoRow>
    requires left { has_quantifiers left.now ≡ false }
    requires right { has_quantifiers right.now ≡ false }
{
    Ok(left.eval(v)? && !right.eval(v)?)
}

fn values(
    alloc: Global,
    numbers: (i128, i128),
    first: &[(i128, i128)],
    second: &[(i128, i128)],
) -> Result<Valuation, NoRow> {
    let mut bags = Items::new(alloc);
    bags.push((S, Items::from_slice(alloc, first)?))?;
    bags.push((T, Items::from_slice(alloc, second)?))?;
    Ok(Valuation {
        numbers: Items::from_slice(alloc, &[(X, numbers.0), (Y, numbers.1)])?,
        bags,
    })
}

// Whether some small bags are a counterexample beside the numbers.
fn some_bags(alloc: Global, left: &Pure, right: &Pure, numbers: (i128, i128)) -> Result<bool, NoRow>
    requires left { has_quantifiers left.now ≡ false }
    requires right { has_quantifiers right.now ≡ false }
{
    for first in BAGS {
        for second in BAGS {
            if is_counter(left, right, &values(alloc, numbers, first, second)?)? {
                return Ok(true);
            }
        }
    }
    Ok(false)
}

// Whether some small numbers and bags are a counterexample.
fn some_values(alloc: Global, left: &Pure, right: &Pure) -> Result<bool, NoRow>
    requires left { has_quantifiers left.now ≡ false }
    requires right { has_quantifiers right.now ≡ false }
{
    for x in 0..4u8 {
        for y in 0..4u8 {
            if some_bags(alloc, left, right, (i128::from(x) - 1, i128::from(y) - 1))? {
                return Ok(true);
            }
        }
    }
    Ok(false)
}

fn push_tried(out: &mut String, is_right: bool) -> Result<(), NoRow> {
    if is_right {
        write!(out, "no")?;
    } else {
        write!(out, "wrong")?;
    }
    Ok(())
}

fn push_told_of(out: &mut String, left: &Pure, right: &Pure, answer: &Answer) -> Result<(), NoRow>
    requires left { has_quantifiers left.now ≡ false }
    requires right { has_quantifiers right.now ≡ false }
{
    match answer {
        Answer::Yes => write!(out, "yes")?,
        Answer::No(v) => push_tried(out, is_counter(left, right, v)?)?,
        Answer::Atoms => write!(out, "atoms")?,
        Answer::Wide => write!(out, "wide")?,
    }
    Ok(())
}

pub fn push_told(
    alloc: Global,
    out: &mut String,
    left: &Pure,
    right: &Pure,
    atoms: u64,
) -> Result<(), NoRow>
    requires small { atoms ≤ 2 ^ 30 }
{
    let answer = answered(alloc, left, right, atoms)?;
    if !is_flat(left) || !is_flat(right) {
        return Err(NoRow);
    }
    push_told_of(out, left, right, &answer)
}

fn push_agreed(out: &mut String, agrees: bool, word: &'static str) -> Result<(), NoRow> {
    if agrees {
        write!(out, "agrees {word}")?;
    } else {
        write!(out, "differs")?;
    }
    Ok(())
}

fn push_searched_of(
    alloc: Global,
    out: &mut String,
    left: &Pure,
    right: &Pure,
    answer: &Answer,
) -> Result<(), NoRow>
    requires left { has_quantifiers left.now ≡ false }
    requires right { has_quantifiers right.now ≡ false }
{
    match answer {
        Answer::Yes => push_agreed(out, !some_values(alloc, left, right)?, "yes")?,
        Answer::No(v) => push_agreed(out, is_counter(left, right, v)?, "no")?,
        Answer::Atoms => write!(out, "atoms")?,
        Answer::Wide => write!(out, "wide")?,
    }
    Ok(())
}

pub fn push_searched(
    alloc: Global,
    out: &mut String,
    left: &Pure,
    right: &Pure,
    atoms: u64,
) -> Result<(), NoRow>
    requires small { atoms ≤ 2 ^ 30 }
{
    let answer = answered(alloc, left, right, atoms)?;
    if !is_flat(left) || !is_flat(right) {
        return Err(NoRow);
    }
    push_searched_of(alloc, out, left, right, &answer)
}
