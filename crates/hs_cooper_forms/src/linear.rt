//! Sums of variables in 128-bit numbers, exact: a sum is refused only where a number of it does not fit.

ghost use Rattle.std.specs.Prelude.{◌≡◌, ◌++◌, [], map, pos, negsuc, ◌+ℤ◌, ◌*ℤ◌, SomeIff, FitsSigned, IfOk, OnOk, OnErr, IsErrOf};
ghost use mir.Syntax.{w128};
ghost use Rattle.std.specs.List.{Contains};
ghost use Rattle.hs_pure.specs.declared.lin.Lin.{Lin};
ghost use Rattle.hs_elimination.specs.Linear.{place, prepend, merge, plus, minus, scale_term, times, number, single, coefficient, without, rest, same_terms, same_lin, HasWideTerm, IsWideLin};
ghost use Rattle.hs_cooper_forms.specs.Sign.{sign};
ghost use Rattle.hs_cooper_forms.specs.declared.refusal.Refusal.TheVariants.{Wide, Memory};

use crate::refusal::Refusal;
use crate::sign::Sign;
use hs_pure::{Lin, Var};
use sqlite_items::Items;
use std::alloc::Global;

// The place of a variable in the order of variables.
fn place(v: Var) -> u64
    ensures { result ≡ place v }
{
    2 * u64::from(v.number) + u64::from(v.bag)
}

fn push_term(terms: &mut Items<(Var, i128)>, v: Var, c: i128) -> Result<(), Refusal>
    ensures ok { OnOk result (terms.new ≡ terms.old ++ prepend v c []) }
    ensures memory { OnErr result (IsErrOf result Memory) }
{
    if c != 0 {
        terms.push((v, c))?;
    }
    Ok(())
}

// The terms of one list times the sign, and those of the other, added up in order.
fn add_terms(
    alloc: Global,
    by: Sign,
    a: &[(Var, i128)],
    b: &[(Var, i128)],
) -> Result<Items<(Var, i128)>, Refusal>
    ensures sum { IfOk result (λ ts. ts ≡ merge (map (scale_term (sign by)) a.now) b.now) }
    ensures wide { IsErrOf result Wide → HasWideTerm (merge (map (scale_term (sign by)) a.now) b.now) }
    ensures narrow { IfOk result (λ _. ¬ (HasWideTerm (merge (map (scale_term (sign by)) a.now) b.now))) }
{
    let mut terms = Items::new(alloc);
    let mut i = 0;
    let mut j = 0;
    'merging: while i < a.len() && j < b.len() {
        let (v, c) = a[i];
        let (w, d) = b[j];
        if place(v) < place(w) {
            let Some(c) = by.times(c) else {
                return Err(Refusal::Wide);
            };
            terms.push((v, c))?;
            i += 1;
        } else if place(w) < place(v) {
            terms.push((w, d))?;
            j += 1;
        } else {
            let Some(sum) = by.times_plus(c, d) else {
                return Err(Refusal::Wide);
            };
            push_term(&mut terms, v, sum)?;
            i += 1;
            j += 1;
        }
    }
    'left: while i < a.len() {
        let (v, c) = a[i];
        let Some(c) = by.times(c) else {
            return Err(Refusal::Wide);
        };
        terms.push((v, c))?;
        i += 1;
    }
    'right: while j < b.len() {
        let (w, d) = b[j];
        terms.push((w, d))?;
        j += 1;
    }
    Ok(terms)
}

// The first sum times the sign, plus the second.
pub(crate) fn add(alloc: Global, by: Sign, a: &Lin, b: &Lin) -> Result<Lin, Refusal>
    ensures sum { IfOk result (λ r. r ≡ plus (times (sign by) a.now) b.now) }
    ensures wide { IsErrOf result Wide → IsWideLin (plus (times (sign by) a.now) b.now) }
    ensures narrow { IfOk result (λ _. ¬ (IsWideLin (plus (times (sign by) a.now) b.now))) }
{
    let terms = add_terms(alloc, by, a.terms.as_slice(), b.terms.as_slice())?;
    let Some(constant) = by.times_plus(a.constant, b.constant) else {
        return Err(Refusal::Wide);
    };
    Ok(Lin { terms, constant })
}

// The second constant less the first, plus 1, if it fits.
fn difference_and_one(a: i128, b: i128) -> Option<i128>
    ensures { SomeIff result (FitsSigned w128 (negsuc 0 *ℤ a +ℤ b +ℤ pos 1)) (negsuc 0 *ℤ a +ℤ b +ℤ pos 1) }
{
    if b < i128::MAX {
        (b + 1).checked_sub(a)
    } else {
        match b.checked_sub(a) {
            Some(difference) => difference.checked_add(1),
            None => None,
        }
    }
}

// The second sum less the first, plus 1.
#[tactic(auto, using(crate::proofs::Merging::nil))]
pub(crate) fn subtract_and_one(alloc: Global, a: &Lin, b: &Lin) -> Result<Lin, Refusal>
    ensures sum { IfOk result (λ r. r ≡ plus (minus b.now a.now) (number (pos 1))) }
    ensures wide { IsErrOf result Wide → IsWideLin (plus (minus b.now a.now) (number (pos 1))) }
    ensures narrow { IfOk result (λ _. ¬ (IsWideLin (plus (minus b.now a.now) (number (pos 1))))) }
{
    let terms = add_terms(alloc, Sign::Minus, a.terms.as_slice(), b.terms.as_slice())?;
    let Some(constant) = difference_and_one(a.constant, b.constant) else {
        return Err(Refusal::Wide);
    };
    Ok(Lin { terms, constant })
}

fn scale_terms(alloc: Global, k: i128, a: &[(Var, i128)]) -> Result<Items<(Var, i128)>, Refusal>
    ensures product { IfOk result (λ ts. ts ≡ map (scale_term k) a.now) }
    ensures wide { IsErrOf result Wide → HasWideTerm (map (scale_term k) a.now) }
    ensures narrow { IfOk result (λ _. ¬ (HasWideTerm (map (scale_term k) a.now))) }
{
    let mut terms = Items::new(alloc);
    for (v, c) in a {
        let Some(product) = k.checked_mul(*c) else {
            return Err(Refusal::Wide);
        };
        terms.push((*v, product))?;
    }
    Ok(terms)
}

// The sum multiplied by `k`.
pub(crate) fn times(alloc: Global, k: i128, a: &Lin) -> Result<Lin, Refusal>
    ensures product { IfOk result (λ r. r ≡ times k a.now) }
    ensures wide { IsErrOf result Wide → IsWideLin (times k a.now) }
    ensures narrow { IfOk result (λ _. ¬ (IsWideLin (times k a.now))) }
{
    let terms = scale_terms(alloc, k, a.terms.as_slice())?;
    let Some(constant) = k.checked_mul(a.constant) else {
        return Err(Refusal::Wide);
    };
    Ok(Lin { terms, constant })
}

/// The sum plus `j`. `Wide` comes where its constant passes 128 bits.
#[tactic(auto, using(crate::proofs::Merging::nil))]
pub fn shifted(alloc: Global, a: &Lin, j: u64) -> Result<Lin, Refusal>
    ensures sum { IfOk result (λ r. r ≡ plus a.now (number (pos j))) }
    ensures wide { IsErrOf result Wide → IsWideLin (plus a.now (number (pos j))) }
    ensures narrow { IfOk result (λ _. IsWideLin (plus a.now (number (pos j))) → IsWideLin a.now) }
{
    let Some(constant) = a.constant.checked_add(i128::from(j)) else {
        return Err(Refusal::Wide);
    };
    let terms = Items::from_slice(alloc, a.terms.as_slice())?;
    Ok(Lin { terms, constant })
}

fn copy_terms(alloc: Global, a: &[(Var, i128)]) -> Result<Items<(Var, i128)>, Refusal>
    ensures terms { IfOk result (λ ts. ts ≡ a.now) }
    ensures narrow { IfOk result (λ ts. ¬ (HasWideTerm ts)) }
    ensures memory { OnErr result (IsErrOf result Memory) }
{
    let mut terms = Items::new(alloc);
    for (v, c) in a {
        terms.push((*v, *c))?;
    }
    Ok(terms)
}

// The same sum, whose numbers are of 128 bits.
pub(crate) fn copy(alloc: Global, a: &Lin) -> Result<Lin, Refusal>
    ensures sum { IfOk result (λ r. r ≡ a.now) }
    ensures narrow { IfOk result (λ _. ¬ (IsWideLin a.now)) }
    ensures memory { OnErr result (IsErrOf result Memory) }
{
    let terms = copy_terms(alloc, a.terms.as_slice())?;
    Ok(Lin {
        terms,
        constant: a.constant,
    })
}

/// The sum without variables that is worth `j`.
pub fn constant(alloc: Global, j: u64) -> Lin
    ensures { result ≡ number (pos j) }
{
    Lin {
        terms: Items::new(alloc),
        constant: i128::from(j),
    }
}

/// The coefficient of a variable, or 0.
pub fn coefficient(a: &Lin, x: Var) -> i128
    ensures { result ≡ coefficient (place x) a.now.terms }
{
    for t in a.terms.as_slice() {
        if place(t.0) == place(x) {
            return t.1;
        }
    }
    0
}

fn other_terms(alloc: Global, a: &[(Var, i128)], x: Var) -> Result<Items<(Var, i128)>, Refusal>
    ensures terms { IfOk result (λ ts. ts ≡ without (place x) a.now) }
    ensures memory { OnErr result (IsErrOf result Memory) }
{
    let mut terms = Items::new(alloc);
    for t in a {
        if place(t.0) != place(x) {
            terms.push(*t)?;
        }
    }
    Ok(terms)
}

/// The sum without its terms of a variable.
pub fn rest(alloc: Global, a: &Lin, x: Var) -> Result<Lin, Refusal>
    ensures sum { IfOk result (λ r. r ≡ rest (place x) a.now) }
    ensures memory { OnErr result (IsErrOf result Memory) }
{
    Ok(Lin {
        terms: other_terms(alloc, a.terms.as_slice(), x)?,
        constant: a.constant,
    })
}

/// A variable with the coefficient 1 or -1.
pub fn single(alloc: Global, x: Var, unit: Sign) -> Result<Lin, Refusal>
    ensures sum { IfOk result (λ r. r ≡ single x (sign unit)) }
    ensures memory { OnErr result (IsErrOf result Memory) }
{
    let coefficient = match unit {
        Sign::Plus => 1,
        Sign::Minus => -1,
    };
    let mut terms = Items::new(alloc);
    terms.push((x, coefficient))?;
    Ok(Lin { terms, constant: 0 })
}

fn same_terms(a: &[(Var, i128)], b: &[(Var, i128)]) -> bool
    ensures { result ≡ same_terms a.now b.now }
{
    if a.len() != b.len() {
        return false;
    }
    let mut i = 0;
    'comparing: while i < a.len() {
        if a[i].0 != b[i].0 || a[i].1 != b[i].1 {
            return false;
        }
        i += 1;
    }
    true
}

/// Whether two sums are one.
pub fn same_lin(a: &Lin, b: &Lin) -> bool
    ensures { result ≡ same_lin a.now b.now }
{
    a.constant == b.constant && same_terms(a.terms.as_slice(), b.terms.as_slice())
}

/// Each sum with the other sign. `Wide` comes where a number of one passes 128 bits.
pub fn negate_all(alloc: Global, sums: &[Lin]) -> Result<Items<Lin>, Refusal>
    ensures sums { IfOk result (λ all. all ≡ map (times (negsuc 0)) sums.now) }
    ensures wide { IsErrOf result Wide → ((a : Lin) × (Contains sums.now a × IsWideLin (times (negsuc 0) a))) }
    ensures narrow { IfOk result (λ _. (a : Lin) → Contains sums.now a → ¬ (IsWideLin (times (negsuc 0) a))) }
{
    let mut all = Items::new(alloc);
    for a in sums {
        let negated = times(alloc, -1, a)?;
        all.push(negated)?;
    }
    Ok(all)
}
