//! Expressions.

ghost use Rattle.std.specs.Prelude.{◌≡◌, IfOk, map};
ghost use Rattle.std.specs.Option.{option_copied};
ghost use Rattle.hs_numbering.specs.Numbering.{Builds, each};
ghost use Rattle.hs_norm_formula.specs.Expr as spec;

use crate::sum::sum;
use hs_numbering::{Numbering, Problem, is_upper};
use hs_pure::{Bag, Lin, NoMemory};
use hs_tree::{ExprKind, ExprTree, Ident, PartTree};
use sqlite_items::{Boxed, Items};
use std::alloc::Global;

/// The name that the whole sum is.
fn bare_name(parts: &[(bool, PartTree)]) -> Option<&Ident>
    ensures { option_copied result ≡ spec.bare_name parts.now }
{
    if parts.len() != 1 {
        return None;
    }
    match parts.get(0) {
        Some((false, PartTree::Name(ident))) => Some(ident),
        _ => None,
    }
}

/// The name that the whole expression is.
#[tactic(auto, unfolding(crate::specs::Expr::bare))]
pub fn bare(e: &ExprTree) -> Option<&Ident>
    ensures { option_copied result ≡ spec.bare e.now }
{
    match &e.kind {
        ExprKind::Sum(parts) => bare_name(parts.as_slice()),
        _ => None,
    }
}

fn names_bag(name: Option<&Ident>) -> bool
    ensures { result ≡ spec.names_bag (option_copied name.entry) }
{
    match name {
        Some(ident) => is_upper(&ident.text),
        None => false,
    }
}

/// Whether the expression can only be a bag.
#[tactic(auto, unfolding(crate::specs::Expr::is_bag))]
pub fn is_bag(e: &ExprTree) -> bool
    ensures { result ≡ spec.is_bag e.now }
{
    match &e.kind {
        ExprKind::Sum(parts) => names_bag(bare_name(parts.as_slice())),
        _ => true,
    }
}

/// The expression where a number belongs.
#[tactic(auto, unfolding(crate::specs::Expr::number))]
pub fn number_expr(alloc: Global, n: &mut Numbering, e: &ExprTree) -> Result<Lin, NoMemory>
    ensures { Builds (spec.number e.now n.old) result n.new }
{
    match &e.kind {
        ExprKind::Sum(parts) => sum(alloc, n, parts.as_slice(), e.at),
        _ => {
            n.blame(e.at, Problem::Kind)?;
            Ok(Lin {
                terms: Items::new(alloc),
                constant: 0,
            })
        }
    }
}

/// The expression where a bag belongs.
#[cycle(bag)]
#[tactic(auto, unfolding(crate::specs::Expr::bag))]
pub fn bag_expr(alloc: Global, n: &mut Numbering, e: &ExprTree) -> Result<Bag, NoMemory>
    ensures { Builds (spec.bag e.now n.old) result n.new }
{
    match &e.kind {
        ExprKind::Sum(parts) => sum_bag(alloc, n, parts.as_slice(), e.at),
        ExprKind::Braces(elements) => literal(alloc, n, elements.as_slice()),
        ExprKind::Union(a, b) => {
            let a = bag_expr(alloc, n, a.get())?;
            let b = bag_expr(alloc, n, b.get())?;
            Ok(Bag::Union(Boxed::new(alloc, a)?, Boxed::new(alloc, b)?))
        }
        ExprKind::Inter(a, b) => {
            let a = bag_expr(alloc, n, a.get())?;
            let b = bag_expr(alloc, n, b.get())?;
            Ok(Bag::Inter(Boxed::new(alloc, a)?, Boxed::new(alloc, b)?))
        }
        ExprKind::Diff(a, b) => {
            let a = bag_expr(alloc, n, a.get())?;
            let b = bag_expr(alloc, n, b.get())?;
            Ok(Bag::Diff(Boxed::new(alloc, a)?, Boxed::new(alloc, b)?))
        }
    }
}

fn sum_bag(
    alloc: Global,
    n: &mut Numbering,
    parts: &[(bool, PartTree)],
    at: u32,
) -> Result<Bag, NoMemory>
    ensures { Builds (spec.sum_bag parts.now at (spec.bare_name parts.now) n.old) result n.new }
{
    match bare_name(parts) {
        Some(ident) => {
            if !is_upper(&ident.text) {
                return no_bag(alloc, n, parts, at);
            }
            let v = n.resolve(alloc, ident)?;
            Ok(Bag::Name(v))
        }
        None => no_bag(alloc, n, parts, at),
    }
}

/// A sum where a bag belongs.
fn no_bag(
    alloc: Global,
    n: &mut Numbering,
    parts: &[(bool, PartTree)],
    at: u32,
) -> Result<Bag, NoMemory>
    ensures { Builds (spec.no_bag parts.now at n.old) result n.new }
{
    n.blame(at, Problem::Kind)?;
    sum(alloc, n, parts, at)?;
    Ok(Bag::Empty)
}

/// The bag of these elements, joined from the left.
fn literal(alloc: Global, n: &mut Numbering, elements: &[ExprTree]) -> Result<Bag, NoMemory>
    ensures { Builds (spec.literal (map (λ e. e.number) (map spec.readings elements.now)) n.old) result n.new }
{
    let ones = numbers(alloc, n, elements)?;
    joined(alloc, ones)
}

#[tactic(auto, unfolding(crate::specs::Expr::number))]
fn numbers(alloc: Global, n: &mut Numbering, elements: &[ExprTree]) -> Result<Vec<Lin>, NoMemory>
    ensures { IfOk result (λ v. (v.items, n.new) ≡ each (λ e. e) (map (λ e. e.number) (map spec.readings elements.now)) n.old) }
{
    let mut ones = Vec::new(alloc);
    for element in elements {
        ones.push(number_expr(alloc, n, element)?)?;
    }
    Ok(ones)
}

fn joined(alloc: Global, ones: Vec<Lin>) -> Result<Bag, NoMemory>
    ensures { IfOk result (λ b. b ≡ spec.joined ones.items) }
{
    let mut found = None;
    for one in ones {
        found = Some(add_one(alloc, found, one)?);
    }
    match found {
        Some(bag) => Ok(bag),
        None => Ok(Bag::Empty),
    }
}

fn add_one(alloc: Global, found: Option<Bag>, one: Lin) -> Result<Bag, NoMemory>
    ensures { IfOk result (λ b. b ≡ spec.add_one found one) }
{
    match found {
        Some(bag) => Ok(Bag::Union(Boxed::new(alloc, bag)?, Boxed::new(alloc, Bag::One(one))?)),
        None => Ok(Bag::One(one)),
    }
}
