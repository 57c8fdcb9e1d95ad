//! Pure formulas.

ghost use Rattle.std.specs.Prelude.{◌≡◌, IfOk, map, false};
ghost use Rattle.hs_numbering.specs.Numbering.{Builds};
ghost use Rattle.hs_norm_formula.specs.Item as spec;

use crate::expr::{bag_expr, is_bag, number_expr};
use hs_numbering::{Numbering, Problem};
use hs_pure::{Lin, NoMemory, Pure, Var};
use hs_tree::{ExprTree, Ident, ItemKind, ItemTree, PureTree, RelTree};
use sqlite_items::{Boxed, Items};
use std::alloc::Global;

/// The formulas joined by "and", where a single one is itself.
fn conj(mut parts: Items<Pure>) -> Pure
    ensures { result ≡ spec.conj parts }
{
    if parts.len() != 1 {
        return Pure::And(parts);
    }
    match parts.pop() {
        Some(part) => part,
        None => Pure::And(parts),
    }
}

/// The formulas joined by "or", where a single one is itself.
fn disj(mut parts: Items<Pure>) -> Pure
    ensures { result ≡ spec.disj parts }
{
    if parts.len() != 1 {
        return Pure::Or(parts);
    }
    match parts.pop() {
        Some(part) => part,
        None => Pure::Or(parts),
    }
}

/// The number variable that a quantifier binds.
#[tactic(auto, unfolding(crate::specs::Item::bind_number))]
fn bind_number(alloc: Global, n: &mut Numbering, ident: &Ident) -> Result<Var, NoMemory>
    ensures { Builds (spec.bind_number ident.now n.old) result n.new }
{
    let v = n.bind(alloc, ident)?;
    if v.bag {
        n.blame(ident.at, Problem::Kind)?;
    }
    Ok(v)
}

/// The normal form of an item, which may stand inside a quantifier.
#[cycle(item)]
#[tactic(auto)]
pub fn item(
    alloc: Global,
    n: &mut Numbering,
    tree: &ItemTree,
    inside: bool,
) -> Result<Pure, NoMemory>
    ensures { Builds (spec.item tree.now inside n.old) result n.new }
{
    match &tree.kind {
        ItemKind::True => Ok(Pure::And(Items::new(alloc))),
        ItemKind::False => Ok(Pure::Or(Items::new(alloc))),
        ItemKind::Not(part) => {
            let part = item(alloc, n, part.get(), inside)?;
            Ok(Pure::Not(Boxed::new(alloc, part)?))
        }
        ItemKind::Group(part) => disjunction(alloc, n, part, inside),
        ItemKind::Exists(ident, part) => {
            let v = bind_number(alloc, n, ident)?;
            let part = disjunction(alloc, n, part, true)?;
            n.leave();
            Ok(Pure::Exists(v, Boxed::new(alloc, part)?))
        }
        ItemKind::Forall(ident, part) => {
            let v = bind_number(alloc, n, ident)?;
            let part = disjunction(alloc, n, part, true)?;
            n.leave();
            Ok(Pure::Forall(v, Boxed::new(alloc, part)?))
        }
        ItemKind::All(ident, elements, part) => {
            if inside {
                n.blame(tree.at, Problem::Shape)?;
            }
            let v = bind_number(alloc, n, ident)?;
            n.leave();
            let elements = bag_expr(alloc, n, elements)?;
            n.enter(alloc, ident, v)?;
            let part = disjunction(alloc, n, part, true)?;
            n.leave();
            Ok(Pure::AllOf(v, elements, Boxed::new(alloc, part)?))
        }
        ItemKind::Divides(divisor, term) => divides(alloc, n, *divisor, term, tree.at),
        ItemKind::Rel(rel, left, right) => relation(alloc, n, *rel, left, right, inside, tree.at),
    }
}

/// The divisibility of a term, at this offset.
#[tactic(auto, unfolding(crate::specs::Item::divides))]
fn divides(
    alloc: Global,
    n: &mut Numbering,
    divisor: u128,
    term: &ExprTree,
    at: u32,
) -> Result<Pure, NoMemory>
    ensures { Builds (spec.divides divisor term.now at n.old) result n.new }
{
    let divisor = if divisor < 1 || divisor > 1 << 126 {
        n.blame(at, Problem::Shape)?;
        1
    } else {
        divisor as i128
    };
    let term = number_expr(alloc, n, term)?;
    Ok(Pure::Divides(divisor, term))
}

fn is_of_bags(rel: RelTree, left: &ExprTree) -> bool
    ensures { result ≡ spec.is_of_bags rel left.now }
{
    match rel {
        RelTree::Subset | RelTree::Within => true,
        RelTree::Eq | RelTree::Ne => is_bag(left),
        _ => false,
    }
}

#[tactic(auto, unfolding(crate::specs::Item::relation))]
fn relation(
    alloc: Global,
    n: &mut Numbering,
    rel: RelTree,
    left: &ExprTree,
    right: &ExprTree,
    inside: bool,
    at: u32,
) -> Result<Pure, NoMemory>
    ensures { Builds (spec.relation rel left.now right.now inside at n.old) result n.new }
{
    if is_of_bags(rel, left) {
        if inside {
            n.blame(at, Problem::Shape)?;
        }
        return of_bags(alloc, n, rel, left, right);
    }
    let left = number_expr(alloc, n, left)?;
    let right = number_expr(alloc, n, right)?;
    compared(alloc, rel, left, right)
}

#[tactic(auto, unfolding(crate::specs::Item::of_bags))]
fn of_bags(
    alloc: Global,
    n: &mut Numbering,
    rel: RelTree,
    left: &ExprTree,
    right: &ExprTree,
) -> Result<Pure, NoMemory>
    ensures { Builds (spec.of_bags rel left.now right.now n.old) result n.new }
{
    if rel == RelTree::Within {
        let element = number_expr(alloc, n, left)?;
        let bag = bag_expr(alloc, n, right)?;
        return Ok(Pure::Member(element, bag));
    }
    let left = bag_expr(alloc, n, left)?;
    let right = bag_expr(alloc, n, right)?;
    match rel {
        RelTree::Subset => Ok(Pure::Subset(left, right)),
        RelTree::Ne => Ok(Pure::Not(Boxed::new(alloc, Pure::BagEq(left, right))?)),
        _ => Ok(Pure::BagEq(left, right)),
    }
}

fn compared(alloc: Global, rel: RelTree, left: Lin, right: Lin) -> Result<Pure, NoMemory>
    ensures { IfOk result (λ p. p ≡ spec.compared rel left right) }
{
    match rel {
        RelTree::Lt => Ok(Pure::Lt(left, right)),
        RelTree::Le => Ok(Pure::Le(left, right)),
        RelTree::Gt => Ok(Pure::Lt(right, left)),
        RelTree::Ge => Ok(Pure::Le(right, left)),
        RelTree::Ne => Ok(Pure::Not(Boxed::new(alloc, Pure::Eq(left, right))?)),
        _ => Ok(Pure::Eq(left, right)),
    }
}

#[cycle(item)]
fn disjunction(
    alloc: Global,
    n: &mut Numbering,
    tree: &PureTree,
    inside: bool,
) -> Result<Pure, NoMemory>
    ensures { Builds (spec.disjunction tree.now inside n.old) result n.new }
{
    let mut cases = Items::new(alloc);
    for case in tree.cases.as_slice() {
        let parts = items(alloc, n, case.as_slice(), inside)?;
        cases.push(conj(parts))?;
    }
    Ok(disj(cases))
}

#[cycle(item)]
pub fn items(
    alloc: Global,
    n: &mut Numbering,
    trees: &[ItemTree],
    inside: bool,
) -> Result<Items<Pure>, NoMemory>
    ensures { Builds (spec.all_of inside (map spec.item trees.now) n.old) result n.new }
{
    let mut parts = Items::new(alloc);
    for tree in trees {
        parts.push(item(alloc, n, tree, inside)?)?;
    }
    Ok(parts)
}

/// The conjunction of these items, where a single one is itself.
pub fn conjunction(alloc: Global, n: &mut Numbering, trees: &[ItemTree]) -> Result<Pure, NoMemory>
    ensures { Builds (spec.conjunction (map spec.item trees.now) n.old) result n.new }
{
    let parts = items(alloc, n, trees, false)?;
    Ok(conj(parts))
}
