//! Terms of sums in order.

ghost use Rattle.std.specs.Prelude.{◌≡◌, ◌≤◌, length, slice_get, OnOk};
ghost use Rattle.hs_norm_formula.specs.Sum as spec;

use hs_pure::{NoMemory, Var};

// How many terms stand before `v`.
fn place(terms: &[(Var, i128)], v: Var) -> usize
    ensures value { result ≡ spec.place v terms.now }
    ensures within { result ≤ length terms.now }
{
    let mut i = 0;
    while i < terms.len() && terms[i].0.number < v.number {
        i += 1;
    }
    i
}

/// The coefficient of `v`.
pub fn coefficient(terms: &[(Var, i128)], v: Var) -> i128
    ensures { result ≡ spec.coefficient v terms.now }
{
    match terms.get(place(terms, v)) {
        Some(term) => { if term.0 == v { term.1 } else { 0 } }
        None => 0,
    }
}

// Whether a term of `v` stands at this place.
fn is_at(terms: &[(Var, i128)], i: usize, v: Var) -> bool
    ensures { result ≡ spec.is_of v (slice_get terms.now i) }
{
    match terms.get(i) {
        Some(term) => term.0 == v,
        None => false,
    }
}

/// Gives `v` the coefficient `c`.
pub fn put(terms: &mut Vec<(Var, i128)>, v: Var, c: i128) -> Result<(), NoMemory>
    ensures { OnOk result (terms.new.items ≡ spec.put v c terms.old.items) }
{
    let i = place(terms.as_slice(), v);
    if is_at(terms.as_slice(), i, v) {
        if c == 0 {
            terms.remove(i);
        } else {
            terms[i] = (v, c);
        }
        return Ok(());
    }
    if c == 0 {
        return Ok(());
    }
    terms.insert(i, (v, c))?;
    Ok(())
}
