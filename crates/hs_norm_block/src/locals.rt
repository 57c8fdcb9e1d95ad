//! The locals of a block.

ghost use Rattle.std.specs.Prelude.{◌≡◌, ◌++◌, OnOk};
ghost use Rattle.hs_norm_block.specs.Program as spec;

use hs_pure::NoMemory;
use hs_tree::{BlockTree, Ident, StatementKind, StatementTree};
use sqlite_items::Items;
use std::alloc::Global;

#[cycle(locals)]
fn push_statement(
    alloc: Global,
    names: &mut Items<Ident>,
    tree: &StatementTree,
) -> Result<(), NoMemory>
    ensures { OnOk result (names.new ≡ names.old ++ spec.statement_locals tree.now) }
{
    match &tree.kind {
        StatementKind::Local(_, x, _) => {
            names.push(x.copy(alloc)?)?;
            Ok(())
        }
        StatementKind::Assign(_, _) => Ok(()),
        StatementKind::Store(_, _, _) => Ok(()),
        StatementKind::Call(_) => Ok(()),
        StatementKind::Branch(_, yes, None) => push_locals(alloc, names, yes),
        StatementKind::Branch(_, yes, Some(no)) => {
            push_locals(alloc, names, yes)?;
            push_locals(alloc, names, no)
        }
        StatementKind::Return(_) => Ok(()),
    }
}

/// Adds the locals of a block, in source order.
#[cycle(locals)]
pub fn push_locals(
    alloc: Global,
    names: &mut Items<Ident>,
    tree: &BlockTree,
) -> Result<(), NoMemory>
    ensures { OnOk result (names.new ≡ names.old ++ spec.locals tree.now) }
{
    for one in tree.statements.as_slice() {
        push_statement(alloc, names, one)?;
    }
    Ok(())
}
