//! Types of expressions, and expressions whose types do not fit.

ghost use Rattle.std.specs.Prelude.{◌≡◌};
ghost use Rattle.std.specs.Option.{option_copied};
ghost use Rattle.hs_lower_scope.specs.View.{shown};
ghost use Rattle.hs_lower_faults.specs.First as first;
ghost use Rattle.hs_lower_faults.specs.Types as spec;

use crate::error::LowerError;
use crate::first::fits;
use hs_declared::VarType;
use hs_lower_scope::{Scope, bare, is_null, part_variable, parts};
use hs_tree::{ExprTree, Ident, PartTree};

pub fn same_type(a: VarType, b: VarType) -> bool
    ensures { result ≡ spec.same_type a b }
{
    match (a, b) {
        (VarType::Int, VarType::Int) => true,
        (VarType::Node(j), VarType::Node(k)) => j == k,
        _ => false,
    }
}

pub fn is_node(kind: VarType) -> bool
    ensures { result ≡ spec.is_node kind }
{
    match kind {
        VarType::Int => false,
        VarType::Node(_) => true,
    }
}

/// The type of an expression: that of its variable, none of `null`, or int.
pub fn type_of(scope: &Scope, e: &ExprTree) -> Option<VarType>
    ensures { result ≡ spec.type_of_expr (shown scope.now) e.now }
{
    type_by(scope, bare(e), is_null(e))
}

fn type_by(scope: &Scope, x: Option<&Ident>, null: bool) -> Option<VarType>
    ensures { result ≡ spec.type_by (shown scope.now) (option_copied x.entry) null }
{
    match x {
        Some(x) => Some(scope.kind(&x.text)),
        None => { if null { None } else { Some(VarType::Int) } }
    }
}

/// Whether a type, or null, goes where a type is wanted.
pub fn goes(have: Option<VarType>, want: VarType) -> bool
    ensures { result ≡ spec.goes have want }
{
    match have {
        Some(have) => same_type(have, want),
        None => is_node(want),
    }
}

/// Whether the sides of an equation have one type, or one is null.
pub fn alike(a: Option<VarType>, b: Option<VarType>) -> bool
    ensures { result ≡ spec.alike a b }
{
    match a {
        None => true,
        Some(a) => match b {
            None => true,
            Some(b) => same_type(a, b),
        },
    }
}

pub fn is_number(kind: Option<VarType>) -> bool
    ensures { result ≡ spec.is_number kind }
{
    match kind {
        None => false,
        Some(kind) => !is_node(kind),
    }
}

/// Whether a result, if there is one, goes where a type is wanted.
pub fn result_goes(have: Option<VarType>, want: VarType) -> bool
    ensures { result ≡ spec.result_goes have want }
{
    match have {
        Some(have) => same_type(have, want),
        None => false,
    }
}

fn variable_fits(scope: &Scope, found: Option<LowerError>, x: &Ident) -> Option<LowerError>
    ensures { result ≡ spec.variable (shown scope.now) x.now found }
{
    fits(found, !is_node(scope.kind(&x.text)), x.at)
}

fn part_fits(
    scope: &Scope,
    found: Option<LowerError>,
    part: &(bool, PartTree),
) -> Option<LowerError>
    ensures { result ≡ spec.part (shown scope.now) part.now found }
{
    match part_variable(part) {
        Some(x) => variable_fits(scope, found, x),
        None => found,
    }
}

fn each_fits(
    scope: &Scope,
    found: Option<LowerError>,
    parts: &[(bool, PartTree)],
) -> Option<LowerError>
    ensures { result ≡ first.all (spec.part (shown scope.now)) parts.now found }
{
    let mut found = found;
    for part in parts {
        found = part_fits(scope, found, part);
    }
    found
}

/// An expression that is no bare variable has int variables alone.
pub fn expr(scope: &Scope, found: Option<LowerError>, e: &ExprTree) -> Option<LowerError>
    ensures { result ≡ spec.expression (shown scope.now) e.now found }
{
    match bare(e) {
        Some(_) => found,
        None => each_fits(scope, found, parts(e)),
    }
}

/// An expression where a type is wanted.
pub fn wanted(
    scope: &Scope,
    found: Option<LowerError>,
    want: VarType,
    e: &ExprTree,
) -> Option<LowerError>
    ensures { result ≡ spec.wanted (shown scope.now) want e.now found }
{
    let found = expr(scope, found, e);
    fits(found, goes(type_of(scope, e), want), e.at)
}
