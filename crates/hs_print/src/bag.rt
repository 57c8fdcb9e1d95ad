//! Bags.

ghost use Rattle.std.specs.Prelude.{◌≡◌, ◌++◌, OnOk};
ghost use Rattle.std.specs.Option.{option_copied};
ghost use Rattle.std.specs.String.{string_bytes};
ghost use Rattle.hs_print.specs.Linear.{bag_text};

use crate::linear::push_linear;
use crate::variables::push_variable;
use hs_numbering::Names;
use hs_pure::Bag;
use std::alloc::AllocError;

// Adds a bag.
pub fn push_bag(out: &mut String, names: Option<&Names>, bag: &Bag) -> Result<(), AllocError>
    ensures { OnOk result (string_bytes out.new ≡ string_bytes out.old ++ bag_text (option_copied names.entry) bag.now) }
{
    match bag {
        Bag::Empty => write!(out, "{{}}"),
        Bag::Name(v) => push_variable(out, names, *v),
        Bag::One(a) => {
            write!(out, "{{")?;
            push_linear(out, names, a)?;
            write!(out, "}}")
        }
        Bag::Union(a, b) => {
            write!(out, "union(")?;
            push_bag(out, names, a.get())?;
            write!(out, ", ")?;
            push_bag(out, names, b.get())?;
            write!(out, ")")
        }
        Bag::Inter(a, b) => {
            write!(out, "inter(")?;
            push_bag(out, names, a.get())?;
            write!(out, ", ")?;
            push_bag(out, names, b.get())?;
            write!(out, ")")
        }
        Bag::Diff(a, b) => {
            write!(out, "diff(")?;
            push_bag(out, names, a.get())?;
            write!(out, ", ")?;
            push_bag(out, names, b.get())?;
            write!(out, ")")
        }
    }
}
