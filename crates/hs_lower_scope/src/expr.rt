//! What an expression is.

ghost use Rattle.std.specs.Prelude.{◌≡◌};
ghost use Rattle.std.specs.Option.{option_copied};
ghost use Rattle.hs_lower_scope.specs.Terms as spec;

use hs_tree::{ExprKind, ExprTree, Ident, PartTree};

/// The parts of a sum; a bag has none.
pub fn parts(e: &ExprTree) -> &[(bool, PartTree)]
    ensures { result.now ≡ spec.parts_of e.now.kind }
{
    match &e.kind {
        ExprKind::Sum(parts) => parts.as_slice(),
        _ => &[],
    }
}

/// The variable of an expression that is nothing else.
pub fn bare(e: &ExprTree) -> Option<&Ident>
    ensures { option_copied result ≡ spec.bare e.now }
{
    match parts(e) {
        [(false, PartTree::Name(x))] => Some(x),
        _ => None,
    }
}

/// Whether an expression is `null` alone.
pub fn is_null(e: &ExprTree) -> bool
    ensures { result ≡ spec.is_null e.now }
{
    match parts(e) {
        [(false, PartTree::Null)] => true,
        _ => false,
    }
}

/// The variable of a part, where it has one.
pub fn part_variable(part: &(bool, PartTree)) -> Option<&Ident>
    ensures { option_copied result ≡ spec.part_variable part.now }
{
    match &part.1 {
        PartTree::Number(_) => None,
        PartTree::Times(_, x) => Some(x),
        PartTree::Name(x) => Some(x),
        PartTree::Null => None,
    }
}
