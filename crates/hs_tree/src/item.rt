ghost use Rattle.std.specs.Prelude.{◌≡◌, IfOk};

use crate::expr::{ExprTree, copy_two};
use crate::ident::Ident;
use hs_text::NoMemory;
use sqlite_items::{Boxed, Items};
use std::alloc::Global;

/// An "or" of "and"s.
#[cycle(item)]
#[derive(Drop)]
pub struct PureTree {
    pub cases: Items<Items<ItemTree>>,
    /// The offset of its first token.
    pub at: u32,
}

/// An item of a conjunction.
#[cycle(item)]
#[derive(Drop)]
pub struct ItemTree {
    pub kind: ItemKind,
    /// The offset of its first token.
    pub at: u32,
}

/// What an item is.
#[cycle(item)]
#[derive(Drop)]
pub enum ItemKind {
    True,
    False,
    Not(Boxed<ItemTree>),
    /// What stands in parentheses.
    Group(PureTree),
    Exists(Ident, PureTree),
    Forall(Ident, PureTree),
    /// For all elements of a bag.
    All(Ident, ExprTree, PureTree),
    /// The number divides the expression.
    Divides(u128, ExprTree),
    Rel(RelTree, ExprTree, ExprTree),
}

/// A relation of two expressions.
#[derive(Clone, Copy, Debug, PartialEq, Eq)]
pub enum RelTree {
    Eq,
    Ne,
    Lt,
    Le,
    Gt,
    Ge,
    Subset,
    /// Is in the bag.
    Within,
}

pub fn copy_items(alloc: Global, items: &[ItemTree]) -> Result<Items<ItemTree>, NoMemory>
    ensures { IfOk result (λ all. all ≡ items.now) }
{
    let mut all = Items::new(alloc);
    for item in items {
        all.push(item.copy(alloc)?)?;
    }
    Ok(all)
}

#[cycle(copy)]
fn copy_cases(alloc: Global, cases: &[Items<ItemTree>]) -> Result<Items<Items<ItemTree>>, NoMemory>
    ensures { IfOk result (λ all. all ≡ cases.now) }
{
    let mut all = Items::new(alloc);
    for case in cases {
        let mut items = Items::new(alloc);
        let members = case.as_slice();
        for item in members {
            items.push(item.copy(alloc)?)?;
        }
        all.push(items)?;
    }
    Ok(all)
}

impl PureTree {
    /// An equal formula.
    #[cycle(copy)]
    pub fn copy(&self, alloc: Global) -> Result<PureTree, NoMemory>
        ensures { IfOk result (λ t. t ≡ self.now) }
    {
        Ok(PureTree {
            cases: copy_cases(alloc, self.cases.as_slice())?,
            at: self.at,
        })
    }
}

// On the heap, so that the callers drop it by one call and not case by case.
#[cycle(copy)]
fn copy_boxed(alloc: Global, item: &ItemTree) -> Result<Boxed<ItemTree>, NoMemory>
    ensures { IfOk result (λ t. t ≡ item.now) }
{
    Ok(Boxed::new(alloc, item.copy(alloc)?)?)
}

impl ItemKind {
    /// An equal kind.
    #[cycle(copy)]
    pub fn copy(&self, alloc: Global) -> Result<ItemKind, NoMemory>
        ensures { IfOk result (λ t. t ≡ self.now) }
    {
        match self {
            ItemKind::True => Ok(ItemKind::True),
            ItemKind::False => Ok(ItemKind::False),
            ItemKind::Not(item) => Ok(ItemKind::Not(copy_boxed(alloc, item.get())?)),
            ItemKind::Group(body) => Ok(ItemKind::Group(body.copy(alloc)?)),
            ItemKind::Exists(name, body) => {
                Ok(ItemKind::Exists(name.copy(alloc)?, body.copy(alloc)?))
            }
            ItemKind::Forall(name, body) => {
                Ok(ItemKind::Forall(name.copy(alloc)?, body.copy(alloc)?))
            }
            ItemKind::All(name, bag, body) => Ok(ItemKind::All(
                name.copy(alloc)?,
                bag.copy(alloc)?,
                body.copy(alloc)?,
            )),
            ItemKind::Divides(number, expr) => Ok(ItemKind::Divides(*number, expr.copy(alloc)?)),
            ItemKind::Rel(relation, left, right) => {
                let (left, right) = copy_two(alloc, left, right)?;
                Ok(ItemKind::Rel(*relation, left, right))
            }
        }
    }
}

impl ItemTree {
    /// An equal item.
    #[cycle(copy)]
    pub fn copy(&self, alloc: Global) -> Result<ItemTree, NoMemory>
        ensures { IfOk result (λ t. t ≡ self.now) }
    {
        Ok(ItemTree {
            kind: self.kind.copy(alloc)?,
            at: self.at,
        })
    }
}
