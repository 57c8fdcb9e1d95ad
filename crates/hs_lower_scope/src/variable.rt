//! Variables and fields.

ghost use Rattle.std.specs.Prelude.{◌≡◌};
ghost use Rattle.hs_lower_scope.specs.Scope as spec;

use hs_declared::VarType;
use hs_text::Text;

/// A parameter or local of a method.
#[derive(Debug, Drop)]
pub struct Variable {
    pub name: Text,
    pub kind: VarType,
}

/// A field: its data type and its place there, both by number from 1, and its type.
#[derive(Clone, Copy, Debug, PartialEq, Eq)]
pub struct Field {
    pub node: u32,
    pub number: u32,
    pub kind: VarType,
}

/// The type of a field that points to a data type, by its number, or is an int.
pub fn field_type(to: Option<u32>) -> VarType
    ensures { result ≡ spec.field_type to }
{
    match to {
        Some(k) => VarType::Node(k),
        None => VarType::Int,
    }
}
