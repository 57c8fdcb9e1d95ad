//! Conditions as formulas over slots.

ghost use Rattle.std.specs.Prelude.{◌≡◌, map, IfOk};
ghost use Rattle.hs_lower_scope.specs.View.{shown};
ghost use Rattle.hs_tree.specs.declared.item.RelTree.TheVariants as rel;
ghost use Rattle.hs_lower.specs.Conditions as spec;

use hs_lower_scope::{Scope, term_of};
use hs_pure::{Lin, NoMemory, Pure};
use hs_tree::{CondTree, ExprTree, RelTree, TestKind, TestTree};
use sqlite_items::{Boxed, Items};
use std::alloc::Global;

// The formulas joined by "and", where a single one is itself.
fn conj(mut parts: Items<Pure>) -> Pure
    ensures { result ≡ spec.conj parts }
{
    if parts.len() != 1 {
        return Pure::And(parts);
    }
    match parts.pop() {
        Some(part) => part,
        None => Pure::And(parts),
    }
}

// The formulas joined by "or", where a single one is itself.
fn disj(mut parts: Items<Pure>) -> Pure
    ensures { result ≡ spec.disj parts }
{
    if parts.len() != 1 {
        return Pure::Or(parts);
    }
    match parts.pop() {
        Some(part) => part,
        None => Pure::Or(parts),
    }
}

fn unequal(alloc: Global, a: Lin, b: Lin) -> Result<Pure, NoMemory>
    ensures { IfOk result (λ p. p ≡ spec.compared rel.Ne a b) }
{
    Ok(Pure::Not(Boxed::new(alloc, Pure::Eq(a, b))?))
}

fn compared(alloc: Global, r: RelTree, a: Lin, b: Lin) -> Result<Pure, NoMemory>
    ensures { IfOk result (λ p. p ≡ spec.compared r a b) }
{
    match r {
        RelTree::Eq => Ok(Pure::Eq(a, b)),
        RelTree::Ne => unequal(alloc, a, b),
        RelTree::Lt => Ok(Pure::Lt(a, b)),
        RelTree::Le => Ok(Pure::Le(a, b)),
        RelTree::Gt => Ok(Pure::Lt(b, a)),
        RelTree::Ge => Ok(Pure::Le(b, a)),
        RelTree::Subset => Ok(Pure::Eq(a, b)),
        RelTree::Within => Ok(Pure::Eq(a, b)),
    }
}

fn relation(
    alloc: Global,
    scope: &Scope,
    r: RelTree,
    a: &ExprTree,
    b: &ExprTree,
) -> Result<Pure, NoMemory>
    ensures { IfOk result (λ p. p ≡ spec.relation (shown scope.now) r a.now b.now) }
{
    let a = term_of(alloc, scope, a)?;
    let b = term_of(alloc, scope, b)?;
    compared(alloc, r, a, b)
}

// On the heap, so that the caller drops it by one call and not case by case.
#[cycle(condition)]
fn boxed(alloc: Global, scope: &Scope, tree: &TestTree) -> Result<Boxed<Pure>, NoMemory>
    ensures { IfOk result (λ p. p ≡ spec.test (shown scope.now) tree.now) }
{
    match &tree.kind {
        TestKind::Not(tree) => {
            let part = boxed(alloc, scope, tree.get())?;
            Ok(Boxed::new(alloc, Pure::Not(part))?)
        }
        TestKind::Group(tree) => Ok(Boxed::new(alloc, condition(alloc, scope, tree)?)?),
        TestKind::Rel(r, a, b) => Ok(Boxed::new(alloc, relation(alloc, scope, *r, a, b)?)?),
    }
}

#[cycle(condition)]
fn tests(alloc: Global, scope: &Scope, trees: &[TestTree]) -> Result<Items<Pure>, NoMemory>
    ensures { IfOk result (λ ps. ps ≡ map (spec.test (shown scope.now)) trees.now) }
{
    let mut all = Items::new(alloc);
    for tree in trees {
        all.push(boxed(alloc, scope, tree)?.into_inner())?;
    }
    Ok(all)
}

/// The formula of a condition.
#[cycle(condition)]
pub fn condition(alloc: Global, scope: &Scope, tree: &CondTree) -> Result<Pure, NoMemory>
    ensures { IfOk result (λ p. p ≡ spec.condition (shown scope.now) tree.now) }
{
    let mut all = Items::new(alloc);
    for case in tree.cases.as_slice() {
        all.push(conj(tests(alloc, scope, case.as_slice())?))?;
    }
    Ok(disj(all))
}
