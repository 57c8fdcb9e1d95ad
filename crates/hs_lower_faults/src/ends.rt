//! Which blocks reach their ends.

ghost use Rattle.std.specs.Prelude.{◌≡◌, map};
ghost use Rattle.std.specs.List.{list_all};
ghost use Rattle.hs_lower_faults.specs.Ends as spec;

use hs_tree::{BlockTree, StatementKind, StatementTree};

// Whether what stands after a statement can be reached.
#[cycle(ends)]
fn statement_ends(tree: &StatementTree) -> bool
    ensures { result ≡ spec.statement_ends tree.now }
{
    match &tree.kind {
        StatementKind::Local(_, _, _) => true,
        StatementKind::Assign(_, _) => true,
        StatementKind::Store(_, _, _) => true,
        StatementKind::Call(_) => true,
        StatementKind::Branch(_, _, None) => true,
        StatementKind::Branch(_, yes, Some(no)) => block_ends(yes) || block_ends(no),
        StatementKind::Return(_) => false,
    }
}

#[cycle(ends)]
fn statements_end(trees: &[StatementTree]) -> bool
    ensures { result ≡ list_all (λ b. b) (map spec.statement_ends trees.now) }
{
    for tree in trees {
        if !statement_ends(tree) {
            return false;
        }
    }
    true
}

/// Whether the end of a block can be reached.
#[cycle(ends)]
pub fn block_ends(tree: &BlockTree) -> bool
    ensures { result ≡ spec.block_ends tree.now }
{
    statements_end(tree.statements.as_slice())
}
