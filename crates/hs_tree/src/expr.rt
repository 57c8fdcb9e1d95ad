ghost use Rattle.std.specs.Prelude.{◌≡◌, IfOk};

use crate::ident::Ident;
use hs_text::NoMemory;
use sqlite_items::{Boxed, Items};
use std::alloc::Global;

/// An expression.
#[cycle(expr)]
#[derive(Drop)]
pub struct ExprTree {
    pub kind: ExprKind,
    /// The offset of its first token.
    pub at: u32,
}

/// What an expression is.
#[cycle(expr)]
#[derive(Drop)]
pub enum ExprKind {
    /// Parts that are added up, at least one. The `bool` is true after a minus sign.
    Sum(Items<(bool, PartTree)>),
    /// A bag of these elements.
    Braces(Items<ExprTree>),
    Union(Boxed<ExprTree>, Boxed<ExprTree>),
    Inter(Boxed<ExprTree>, Boxed<ExprTree>),
    Diff(Boxed<ExprTree>, Boxed<ExprTree>),
}

/// A part of a sum.
#[derive(Debug, Drop)]
pub enum PartTree {
    Number(u128),
    /// A multiple of a variable.
    Times(u128, Ident),
    Name(Ident),
    Null,
}

impl PartTree {
    /// An equal part.
    pub fn copy(&self, alloc: Global) -> Result<PartTree, NoMemory>
        ensures { IfOk result (λ t. t ≡ self.now) }
    {
        match self {
            PartTree::Number(number) => Ok(PartTree::Number(*number)),
            PartTree::Times(number, name) => Ok(PartTree::Times(*number, name.copy(alloc)?)),
            PartTree::Name(name) => Ok(PartTree::Name(name.copy(alloc)?)),
            PartTree::Null => Ok(PartTree::Null),
        }
    }
}

fn copy_parts(
    alloc: Global,
    parts: &[(bool, PartTree)],
) -> Result<Items<(bool, PartTree)>, NoMemory>
    ensures { IfOk result (λ all. all ≡ parts.now) }
{
    let mut all = Items::new(alloc);
    for part in parts {
        let value = part.1.copy(alloc)?;
        all.push((part.0, value))?;
    }
    Ok(all)
}

#[cycle(copy)]
pub fn copy_exprs(alloc: Global, exprs: &[ExprTree]) -> Result<Items<ExprTree>, NoMemory>
    ensures { IfOk result (λ all. all ≡ exprs.now) }
{
    let mut all = Items::new(alloc);
    for expr in exprs {
        all.push(expr.copy(alloc)?)?;
    }
    Ok(all)
}

// On the heap, so that the callers drop it by one call and not case by case.
#[cycle(copy)]
fn copy_boxed(alloc: Global, e: &ExprTree) -> Result<Boxed<ExprTree>, NoMemory>
    ensures { IfOk result (λ t. t ≡ e.now) }
{
    Ok(Boxed::new(alloc, e.copy(alloc)?)?)
}

/// Equal expressions.
pub fn copy_two(alloc: Global, a: &ExprTree, b: &ExprTree) -> Result<(ExprTree, ExprTree), NoMemory>
    ensures { IfOk result (λ r. r ≡ (a.now, b.now)) }
{
    let first = copy_boxed(alloc, a)?;
    let second = b.copy(alloc)?;
    Ok((first.into_inner(), second))
}

impl ExprKind {
    /// An equal kind.
    #[cycle(copy)]
    pub fn copy(&self, alloc: Global) -> Result<ExprKind, NoMemory>
        ensures { IfOk result (λ t. t ≡ self.now) }
    {
        match self {
            ExprKind::Sum(parts) => Ok(ExprKind::Sum(copy_parts(alloc, parts.as_slice())?)),
            ExprKind::Braces(exprs) => Ok(ExprKind::Braces(copy_exprs(alloc, exprs.as_slice())?)),
            ExprKind::Union(left, right) => {
                let left = copy_boxed(alloc, left.get())?;
                let right = copy_boxed(alloc, right.get())?;
                Ok(ExprKind::Union(left, right))
            }
            ExprKind::Inter(left, right) => {
                let left = copy_boxed(alloc, left.get())?;
                let right = copy_boxed(alloc, right.get())?;
                Ok(ExprKind::Inter(left, right))
            }
            ExprKind::Diff(left, right) => {
                let left = copy_boxed(alloc, left.get())?;
                let right = copy_boxed(alloc, right.get())?;
                Ok(ExprKind::Diff(left, right))
            }
        }
    }
}

impl ExprTree {
    /// An equal expression.
    #[cycle(copy)]
    pub fn copy(&self, alloc: Global) -> Result<ExprTree, NoMemory>
        ensures { IfOk result (λ t. t ≡ self.now) }
    {
        Ok(ExprTree {
            kind: self.kind.copy(alloc)?,
            at: self.at,
        })
    }
}
