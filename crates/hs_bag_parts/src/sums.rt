//! Sums of variables in 128-bit numbers, exact: a sum is refused only where a number of it does not fit.

ghost use Rattle.std.specs.Prelude.{◌≡◌, ◌<◌, ◌++◌, [], map, IfOk, OnOk, OnErr, IsErrOf};
ghost use Rattle.hs_elimination.specs.Linear.{place, prepend, merge, plus, scale_term, times, HasWideTerm};
ghost use Rattle.hs_cooper_forms.specs.declared.refusal.Refusal.TheVariants.{Wide, Memory};
ghost use Rattle.hs_reduction.specs.Layout.{variable};
ghost use Rattle.hs_reduction.specs.Reduction.{zero_term};
ghost use Rattle.hs_bag_parts.specs.Formulas.{counted};
ghost use Rattle.hs_bag_parts.specs.Widths.{SharePlace, TimesIsWide, PlusIsWide};

use hs_cooper_forms::{Refusal, constant};
use hs_pure::{Lin, NoMemory, Var};
use sqlite_items::Items;
use std::alloc::Global;

// The place of a variable in the order of variables.
fn place(v: Var) -> u64
    ensures { result ≡ place v }
{
    2 * u64::from(v.number) + u64::from(v.bag)
}

fn push_term(terms: &mut Items<(Var, i128)>, v: Var, c: i128) -> Result<(), Refusal>
    ensures ok { OnOk result (terms.new ≡ terms.old ++ prepend v c []) }
    ensures memory { OnErr result (IsErrOf result Memory) }
{
    if c != 0 {
        terms.push((v, c))?;
    }
    Ok(())
}

// Two lists of terms added up, in order.
fn add_terms(
    alloc: Global,
    a: &[(Var, i128)],
    b: &[(Var, i128)],
) -> Result<Items<(Var, i128)>, Refusal>
    ensures sum { IfOk result (λ ts. ts ≡ merge a.now b.now) }
    ensures wide { IsErrOf result Wide → HasWideTerm (merge a.now b.now) }
    ensures shared { IsErrOf result Wide → SharePlace a.now b.now }
{
    let mut terms = Items::new(alloc);
    let mut i = 0;
    let mut j = 0;
    'merging: while i < a.len() && j < b.len() {
        let (v, c) = a[i];
        let (w, d) = b[j];
        if place(v) < place(w) {
            terms.push((v, c))?;
            i += 1;
        } else if place(w) < place(v) {
            terms.push((w, d))?;
            j += 1;
        } else {
            let Some(sum) = c.checked_add(d) else {
                return Err(Refusal::Wide);
            };
            push_term(&mut terms, v, sum)?;
            i += 1;
            j += 1;
        }
    }
    'left: while i < a.len() {
        terms.push(a[i])?;
        i += 1;
    }
    'right: while j < b.len() {
        terms.push(b[j])?;
        j += 1;
    }
    Ok(terms)
}

/// The sum of two sums. `Wide` comes only where the constants, or the coefficients of a variable that both have, add up to
/// a number that passes 128 bits.
pub fn add(alloc: Global, a: &Lin, b: &Lin) -> Result<Lin, Refusal>
    ensures sum { IfOk result (λ r. r ≡ plus a.now b.now) }
    ensures wide { IsErrOf result Wide → PlusIsWide a.now b.now }
{
    let terms = add_terms(alloc, a.terms.as_slice(), b.terms.as_slice())?;
    let Some(constant) = a.constant.checked_add(b.constant) else {
        return Err(Refusal::Wide);
    };
    Ok(Lin { terms, constant })
}

fn scale_terms(alloc: Global, k: i128, a: &[(Var, i128)]) -> Result<Items<(Var, i128)>, Refusal>
    ensures product { IfOk result (λ ts. ts ≡ map (scale_term k) a.now) }
    ensures wide { IsErrOf result Wide → HasWideTerm (map (scale_term k) a.now) }
{
    let mut terms = Items::new(alloc);
    for (v, c) in a {
        let Some(product) = k.checked_mul(*c) else {
            return Err(Refusal::Wide);
        };
        terms.push((*v, product))?;
    }
    Ok(terms)
}

/// The sum multiplied by `k`. `Wide` comes only where a number of it passes 128 bits.
pub fn times(alloc: Global, k: i128, a: &Lin) -> Result<Lin, Refusal>
    ensures product { IfOk result (λ r. r ≡ times k a.now) }
    ensures wide { IsErrOf result Wide → TimesIsWide k a.now }
{
    let terms = scale_terms(alloc, k, a.terms.as_slice())?;
    let Some(constant) = k.checked_mul(a.constant) else {
        return Err(Refusal::Wide);
    };
    Ok(Lin { terms, constant })
}

/// The number variable with a number, as a sum.
pub fn variable(alloc: Global, number: u32) -> Result<Lin, NoMemory>
    ensures { IfOk result (λ a. a ≡ variable number) }
{
    Lin::variable(alloc, Var { number, bag: false })
}

/// The sum that is worth 0.
pub fn zero(alloc: Global) -> Lin
    ensures { result ≡ zero_term }
{
    constant(alloc, 0)
}

/// A count: a variable, or 0.
pub fn counted(alloc: Global, count: Option<u32>) -> Result<Lin, NoMemory>
    ensures { IfOk result (λ a. a ≡ counted count) }
{
    match count {
        None => Ok(zero(alloc)),
        Some(number) => variable(alloc, number),
    }
}

// Two terms with the coefficient 1.
#[tactic(auto, using(crate::proofs::Adding::plus_rising))]
fn two(alloc: Global, first: u32, second: u32) -> Result<Lin, NoMemory>
    requires { first < second }
    ensures { IfOk result (λ a. a ≡ plus (variable first) (variable second)) }
{
    let mut terms = Items::new(alloc);
    terms.push((
        Var {
            number: first,
            bag: false,
        },
        1,
    ))?;
    terms.push((
        Var {
            number: second,
            bag: false,
        },
        1,
    ))?;
    Ok(Lin { terms, constant: 0 })
}

// Twice a variable.
fn twice(alloc: Global, number: u32) -> Result<Lin, NoMemory>
    ensures { IfOk result (λ a. a ≡ plus (variable number) (variable number)) }
{
    let mut terms = Items::new(alloc);
    terms.push((Var { number, bag: false }, 2))?;
    Ok(Lin { terms, constant: 0 })
}

#[tactic(auto, using(crate::proofs::Adding::plus_swapped))]
fn variables(alloc: Global, first: u32, second: u32) -> Result<Lin, NoMemory>
    ensures { IfOk result (λ a. a ≡ plus (variable first) (variable second)) }
{
    if first < second {
        two(alloc, first, second)
    } else if second < first {
        two(alloc, second, first)
    } else {
        twice(alloc, first)
    }
}

/// The sum of two counts.
pub fn counts(alloc: Global, x: Option<u32>, y: Option<u32>) -> Result<Lin, NoMemory>
    ensures { IfOk result (λ a. a ≡ plus (counted x) (counted y)) }
{
    match (x, y) {
        (Some(x), Some(y)) => variables(alloc, x, y),
        (Some(x), None) => variable(alloc, x),
        (None, y) => counted(alloc, y),
    }
}
