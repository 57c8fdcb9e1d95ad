//! Types of fields, parameters, locals and results, and names that nothing declares.

ghost use Rattle.hs_numbering.specs.Numbering.{Builds};
ghost use Rattle.hs_declared.specs.Types as spec;

use crate::table::Table;
use hs_heap::Of;
use hs_numbering::{Numbering, Problem};
use hs_pure::NoMemory;
use hs_tree::{Ident, TypeTree};
use std::alloc::Global;

/// The type of a parameter or result: an integer, or a data type by its number from 1.
#[derive(Clone, Copy, Debug, PartialEq, Eq)]
pub enum VarType {
    Int,
    Node(u32),
}

/// Notes that nothing declares a name, as a fault at its place.
pub fn undeclared(alloc: Global, n: &mut Numbering, x: &Ident) -> Result<(), NoMemory>
    ensures { Builds (spec.undeclared x.now n.old) result n.new }
{
    let name = x.text.copy(alloc)?;
    n.blame(x.at, Problem::Unknown(name))
}

/// The type that a tree names. A name that is no data type's is a fault, and the type is then
/// an integer.
pub fn type_of(
    alloc: Global,
    n: &mut Numbering,
    table: &Table,
    tree: &TypeTree,
) -> Result<VarType, NoMemory>
    ensures { Builds (spec.type_of table.now tree.now n.old) result n.new }
{
    let TypeTree::Named(x) = tree else {
        return Ok(VarType::Int);
    };
    if let Some(entry) = table.get(&x.text) {
        if let Of::Node(k) = entry.of {
            return Ok(VarType::Node(k));
        }
    }
    undeclared(alloc, n, x)?;
    Ok(VarType::Int)
}

/// The type that a tree names, where there is one, as [`type_of`] gives it.
pub fn optional_type(
    alloc: Global,
    n: &mut Numbering,
    table: &Table,
    tree: &Option<TypeTree>,
) -> Result<Option<VarType>, NoMemory>
    ensures { Builds (spec.optional_type table.now tree.now n.old) result n.new }
{
    match tree {
        None => Ok(None),
        Some(tree) => Ok(Some(type_of(alloc, n, table, tree)?)),
    }
}
