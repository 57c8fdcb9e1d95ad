//! Sums of variables in 128-bit numbers, exact: a sum is refused only where a number of it does not fit.

ghost use Rattle.std.specs.Prelude.{◌≡◌, ◌++◌, [], map, pos, negsuc, ◌+ℤ◌, ◌*ℤ◌, SomeIff, FitsSigned, IfOk, OnOk, OnErr, IsErrOf};
ghost use mir.Syntax.{w128};
ghost use Rattle.hs_elimination.specs.Linear.{place, prepend, merge, plus, minus, scale_term, times, coefficient, rest, HasWideTerm, IsWideLin};
ghost use Rattle.hs_elimination.specs.Cases.{substitute_lin};
ghost use Rattle.hs_cooper_forms.specs.declared.refusal.Refusal.TheVariants.{Wide, Memory};

use crate::factor::Factor;
use hs_cooper_forms::{Refusal, coefficient, rest};
use hs_pure::{Lin, Var};
use sqlite_items::Items;
use std::alloc::Global;

// The place of a variable in the order of variables.
fn place(v: Var) -> u64
    ensures { result ≡ place v }
{
    2 * u64::from(v.number) + u64::from(v.bag)
}

fn push_term(terms: &mut Items<(Var, i128)>, v: Var, c: i128) -> Result<(), Refusal>
    ensures ok { OnOk result (terms.new ≡ terms.old ++ prepend v c []) }
    ensures memory { OnErr result (IsErrOf result Memory) }
{
    if c != 0 {
        terms.push((v, c))?;
    }
    Ok(())
}

// The terms of one list times the factor, and those of the other, added up in order.
fn add_terms(
    alloc: Global,
    by: &Factor,
    a: &[(Var, i128)],
    b: &[(Var, i128)],
) -> Result<Items<(Var, i128)>, Refusal>
    ensures sum { IfOk result (λ ts. ts ≡ merge (map (scale_term by.now.number) a.now) b.now) }
    ensures wide { IsErrOf result Wide → HasWideTerm (merge (map (scale_term by.now.number) a.now) b.now) }
{
    let mut terms = Items::new(alloc);
    let mut i = 0;
    let mut j = 0;
    'merging: while i < a.len() && j < b.len() {
        let (v, c) = a[i];
        let (w, d) = b[j];
        if place(v) < place(w) {
            let Some(c) = by.times(c) else {
                return Err(Refusal::Wide);
            };
            terms.push((v, c))?;
            i += 1;
        } else if place(w) < place(v) {
            terms.push((w, d))?;
            j += 1;
        } else {
            let Some(sum) = by.times_plus(c, d) else {
                return Err(Refusal::Wide);
            };
            push_term(&mut terms, v, sum)?;
            i += 1;
            j += 1;
        }
    }
    'left: while i < a.len() {
        let (v, c) = a[i];
        let Some(c) = by.times(c) else {
            return Err(Refusal::Wide);
        };
        terms.push((v, c))?;
        i += 1;
    }
    'right: while j < b.len() {
        let (w, d) = b[j];
        terms.push((w, d))?;
        j += 1;
    }
    Ok(terms)
}

// The first sum times the factor, plus the second.
fn add(alloc: Global, by: &Factor, a: &Lin, b: &Lin) -> Result<Lin, Refusal>
    ensures sum { IfOk result (λ r. r ≡ plus (times by.now.number a.now) b.now) }
    ensures wide { IsErrOf result Wide → IsWideLin (plus (times by.now.number a.now) b.now) }
{
    let terms = add_terms(alloc, by, a.terms.as_slice(), b.terms.as_slice())?;
    let Some(constant) = by.times_plus(a.constant, b.constant) else {
        return Err(Refusal::Wide);
    };
    Ok(Lin { terms, constant })
}

fn scale_terms(alloc: Global, by: &Factor, a: &[(Var, i128)]) -> Result<Items<(Var, i128)>, Refusal>
    ensures product { IfOk result (λ ts. ts ≡ map (scale_term by.now.number) a.now) }
    ensures wide { IsErrOf result Wide → HasWideTerm (map (scale_term by.now.number) a.now) }
{
    let mut terms = Items::new(alloc);
    for (v, c) in a {
        let Some(product) = by.times(*c) else {
            return Err(Refusal::Wide);
        };
        terms.push((*v, product))?;
    }
    Ok(terms)
}

fn scale(alloc: Global, by: &Factor, a: &Lin) -> Result<Lin, Refusal>
    ensures product { IfOk result (λ r. r ≡ times by.now.number a.now) }
    ensures wide { IsErrOf result Wide → IsWideLin (times by.now.number a.now) }
{
    let terms = scale_terms(alloc, by, a.terms.as_slice())?;
    let Some(constant) = by.times(a.constant) else {
        return Err(Refusal::Wide);
    };
    Ok(Lin { terms, constant })
}

/// `k` times the sum. `Wide` comes only where a number of the result passes 128 bits.
pub fn times(alloc: Global, k: i128, a: &Lin) -> Result<Lin, Refusal>
    ensures product { IfOk result (λ r. r ≡ times k a.now) }
    ensures wide { IsErrOf result Wide → IsWideLin (times k a.now) }
{
    scale(alloc, &Factor { number: k }, a)
}

/// `k` times the first sum, plus the second. `Wide` comes only where a number of the result passes 128 bits.
pub fn times_plus(alloc: Global, k: i128, a: &Lin, b: &Lin) -> Result<Lin, Refusal>
    ensures sum { IfOk result (λ r. r ≡ plus (times k a.now) b.now) }
    ensures wide { IsErrOf result Wide → IsWideLin (plus (times k a.now) b.now) }
{
    add(alloc, &Factor { number: k }, a, b)
}

/// The first sum less the second. `Wide` comes only where a number of the result passes 128 bits.
pub fn difference(alloc: Global, a: &Lin, b: &Lin) -> Result<Lin, Refusal>
    ensures sum { IfOk result (λ r. r ≡ minus a.now b.now) }
    ensures wide { IsErrOf result Wide → IsWideLin (minus a.now b.now) }
{
    add(alloc, &Factor { number: -1 }, b, a)
}

/// The sum `a` with `term` in the place of `x`. `Wide` comes only where a number of the result passes 128 bits.
pub fn substitute_lin(alloc: Global, a: &Lin, x: Var, term: &Lin) -> Result<Lin, Refusal>
    ensures sum { IfOk result (λ r. r ≡ substitute_lin (place x) term.now a.now) }
    ensures wide { IsErrOf result Wide → IsWideLin (substitute_lin (place x) term.now a.now) }
{
    let others = rest(alloc, a, x)?;
    let by = Factor {
        number: coefficient(a, x),
    };
    if by.number == 0 {
        return Ok(others);
    }
    add(alloc, &by, term, &others)
}
