//! Sums of numbers and variables.

ghost use Rattle.std.specs.Prelude.{◌≡◌, ◌^◌, ◌+ℤ◌, nat_le, IfOk, Some};
ghost use Rattle.std.specs.Option.{option_map};
ghost use Rattle.hs_numbering.specs.Numbering.{Builds, each};
ghost use Rattle.hs_norm_formula.specs.Sum as spec;

use crate::term::{coefficient, put};
use hs_numbering::{Numbering, Problem, Reading};
use hs_pure::{Lin, NoMemory, Var};
use hs_tree::{Ident, PartTree};
use sqlite_items::Items;
use std::alloc::Global;

/// The variable of a name that stands where a number belongs.
#[tactic(auto, unfolding(crate::specs::Sum::number_var))]
pub fn number_var(alloc: Global, n: &mut Numbering, ident: &Ident) -> Result<Var, NoMemory>
    ensures { Builds (spec.number_var ident.now n.old) result n.new }
{
    let v = n.resolve(alloc, ident)?;
    if v.bag {
        n.blame(ident.at, Problem::Kind)?;
    }
    Ok(v)
}

/// A part of a sum, once its name is known: whether a minus sign stands before it, its variable, and how
/// often that counts. Without a variable it is a number.
#[derive(Debug, Drop)]
pub struct Term {
    pub minus: bool,
    pub var: Option<Var>,
    pub size: u128,
}

fn term_of(alloc: Global, n: &mut Numbering, minus: bool, part: &PartTree) -> Result<Term, NoMemory>
    ensures { Builds (spec.term (minus, part.now) n.old) result n.new }
{
    match part {
        PartTree::Number(size) => Ok(Term {
            minus,
            var: None,
            size: *size,
        }),
        PartTree::Times(size, ident) => {
            let v = number_var(alloc, n, ident)?;
            Ok(Term {
                minus,
                var: Some(v),
                size: *size,
            })
        }
        PartTree::Name(ident) => {
            let v = number_var(alloc, n, ident)?;
            Ok(Term {
                minus,
                var: Some(v),
                size: 1,
            })
        }
        PartTree::Null => Ok(Term {
            minus,
            var: None,
            size: 0,
        }),
    }
}

fn terms_of(
    alloc: Global,
    n: &mut Numbering,
    parts: &[(bool, PartTree)],
) -> Result<Items<Term>, NoMemory>
    ensures { Builds (each spec.term parts.now n.old) result n.new }
{
    let mut terms = Items::new(alloc);
    for part in parts {
        terms.push(term_of(alloc, n, part.0, &part.1)?)?;
    }
    Ok(terms)
}

// Whether the numbers, with 1 for each variable without a number, add up to at most 2^126.
fn is_light(terms: &[Term]) -> bool
    ensures { result ≡ nat_le (spec.weight terms.now) (2 ^ 126) }
{
    let mut room: u128 = 1 << 126;
    for term in terms {
        if term.size > room {
            return false;
        }
        room -= term.size;
    }
    true
}

// The number with the term added, from -2^126 to 2^126.
fn moved(number: i128, term: &Term) -> Option<i128>
    ensures { result ≡ spec.small (number +ℤ spec.amount term.now) }
{
    let sum = if term.minus {
        number.checked_sub_unsigned(term.size)
    } else {
        number.checked_add_unsigned(term.size)
    };
    match sum {
        Some(sum) if sum.unsigned_abs() <= 1 << 126 => Some(sum),
        _ => None,
    }
}

// Adds the term to the sum of these terms and this constant, and answers the constant after it.
fn add(terms: &mut Vec<(Var, i128)>, constant: i128, term: &Term) -> Result<Option<i128>, NoMemory>
    ensures { IfOk result (λ c. option_map (spec.sum_of terms.new.items) c ≡ spec.add (Some (spec.sum_of terms.old.items constant)) term.now) }
{
    let Some(v) = term.var else {
        return Ok(moved(constant, term));
    };
    let Some(c) = moved(coefficient(terms.as_slice(), v), term) else {
        return Ok(None);
    };
    put(terms, v, c)?;
    Ok(Some(constant))
}

fn added(alloc: Global, terms: &[Term]) -> Result<Option<Lin>, NoMemory>
    ensures { IfOk result (λ a. a ≡ spec.added terms.now) }
{
    let mut constant: i128 = 0;
    let mut found = Vec::new(alloc);
    for term in terms {
        let Some(next) = add(&mut found, constant, term)? else {
            return Ok(None);
        };
        constant = next;
    }
    Ok(Some(Lin {
        terms: Items::from_vec(found),
        constant,
    }))
}

fn allowed(alloc: Global, is_numbered: bool, terms: &[Term]) -> Result<Option<Lin>, NoMemory>
    ensures { IfOk result (λ a. a ≡ spec.allowed is_numbered terms.now) }
{
    if is_numbered || is_light(terms) {
        return added(alloc, terms);
    }
    Ok(None)
}

/// The sum of these parts, whose first token is at this offset.
#[tactic(auto, unfolding(crate::specs::Sum::sum))]
pub fn sum(
    alloc: Global,
    n: &mut Numbering,
    parts: &[(bool, PartTree)],
    at: u32,
) -> Result<Lin, NoMemory>
    ensures { Builds (spec.sum parts.now at n.old) result n.new }
{
    let terms = terms_of(alloc, n, parts)?;
    let is_numbered = n.reading == Reading::Numbered;
    if let Some(sum) = allowed(alloc, is_numbered, terms.as_slice())? {
        return Ok(sum);
    }
    n.blame(at, Problem::Shape)?;
    Ok(Lin {
        terms: Items::new(alloc),
        constant: 0,
    })
}
