//! The terms of expressions.

ghost use Rattle.std.specs.Prelude.{◌≡◌, ◌≤◌, ◌+ℤ◌, length, slice_get, map, IfOk, OnOk, Some};
ghost use Rattle.std.specs.Option.{option_map};
ghost use Rattle.hs_norm_formula.specs.Sum as sum;
ghost use Rattle.hs_lower_scope.specs.Terms as spec;
ghost use Rattle.hs_lower_scope.specs.View.{shown};

use crate::expr::parts;
use crate::scope::Scope;
use hs_pure::{Lin, NoMemory, Var};
use hs_tree::{ExprTree, Ident, PartTree};
use sqlite_items::Items;
use std::alloc::Global;

// How many terms stand before `v`.
fn place(terms: &[(Var, i128)], v: Var) -> usize
    ensures value { result ≡ sum.place v terms.now }
    ensures within { result ≤ length terms.now }
{
    let mut i = 0;
    while i < terms.len() && terms[i].0.number < v.number {
        i += 1;
    }
    i
}

// The coefficient of `v`.
fn coefficient(terms: &[(Var, i128)], v: Var) -> i128
    ensures { result ≡ sum.coefficient v terms.now }
{
    match terms.get(place(terms, v)) {
        Some(term) => { if term.0 == v { term.1 } else { 0 } }
        None => 0,
    }
}

// Whether a term of `v` stands at this place.
fn is_at(terms: &[(Var, i128)], i: usize, v: Var) -> bool
    ensures { result ≡ sum.is_of v (slice_get terms.now i) }
{
    match terms.get(i) {
        Some(term) => term.0 == v,
        None => false,
    }
}

// Gives `v` the coefficient `c`.
fn put(terms: &mut Vec<(Var, i128)>, v: Var, c: i128) -> Result<(), NoMemory>
    ensures { OnOk result (terms.new.items ≡ sum.put v c terms.old.items) }
{
    let i = place(terms.as_slice(), v);
    if is_at(terms.as_slice(), i, v) {
        if c == 0 {
            terms.remove(i);
        } else {
            terms[i] = (v, c);
        }
        return Ok(());
    }
    if c == 0 {
        return Ok(());
    }
    terms.insert(i, (v, c))?;
    Ok(())
}

// A part as what is added: its variable, and how often that counts. Without a variable it is a number.
#[derive(Clone, Copy)]
struct Part {
    minus: bool,
    var: Option<Var>,
    size: u128,
}

fn variable(scope: &Scope, x: &Ident) -> Result<Option<Var>, NoMemory>
    ensures { IfOk result (λ v. v ≡ spec.variable_term (shown scope.now) x.now) }
{
    let number = scope.slot(&x.text)?;
    Ok(Some(Var { number, bag: false }))
}

fn part_of(scope: &Scope, part: &(bool, PartTree)) -> Result<Part, NoMemory>
    ensures { IfOk result (λ p. spec.term_by p ≡ spec.part_term (shown scope.now) part.now) }
{
    let minus = part.0;
    match &part.1 {
        PartTree::Number(size) => Ok(Part {
            minus,
            var: None,
            size: *size,
        }),
        PartTree::Times(size, x) => Ok(Part {
            minus,
            var: variable(scope, x)?,
            size: *size,
        }),
        PartTree::Name(x) => Ok(Part {
            minus,
            var: variable(scope, x)?,
            size: 1,
        }),
        PartTree::Null => Ok(Part {
            minus,
            var: None,
            size: 0,
        }),
    }
}

// The number with the part added, from -2^126 to 2^126.
fn moved(number: i128, part: Part) -> Option<i128>
    ensures { result ≡ sum.small (number +ℤ sum.amount (spec.term_by part)) }
{
    let total = if part.minus {
        number.checked_sub_unsigned(part.size)
    } else {
        number.checked_add_unsigned(part.size)
    };
    match total {
        Some(total) if total.unsigned_abs() <= 1 << 126 => Some(total),
        _ => None,
    }
}

// Adds the part to the sum of these terms and this constant, and answers the constant after it.
fn add(terms: &mut Vec<(Var, i128)>, constant: i128, part: Part) -> Result<Option<i128>, NoMemory>
    ensures { IfOk result (λ c. option_map (sum.sum_of terms.new.items) c ≡ sum.add (Some (sum.sum_of terms.old.items constant)) (spec.term_by part)) }
{
    let Some(v) = part.var else {
        return Ok(moved(constant, part));
    };
    let Some(c) = moved(coefficient(terms.as_slice(), v), part) else {
        return Ok(None);
    };
    put(terms, v, c)?;
    Ok(Some(constant))
}

fn added(alloc: Global, scope: &Scope, parts: &[(bool, PartTree)]) -> Result<Option<Lin>, NoMemory>
    ensures { IfOk result (λ a. a ≡ sum.added (map (spec.part_term (shown scope.now)) parts.now)) }
{
    let mut constant: i128 = 0;
    let mut found = Vec::new(alloc);
    for part in parts {
        let Some(next) = add(&mut found, constant, part_of(scope, part)?)? else {
            return Ok(None);
        };
        constant = next;
    }
    Ok(Some(Lin {
        terms: Items::from_vec(found),
        constant,
    }))
}

/// The term of an expression over slots: its parts added up, or 0 for what is no light sum.
pub fn term_of(alloc: Global, scope: &Scope, e: &ExprTree) -> Result<Lin, NoMemory>
    ensures { IfOk result (λ a. a ≡ spec.term_of (shown scope.now) e.now) }
{
    match added(alloc, scope, parts(e))? {
        Some(term) => Ok(term),
        None => Ok(Lin {
            terms: Items::new(alloc),
            constant: 0,
        }),
    }
}
