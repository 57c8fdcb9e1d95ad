//! Sums.

ghost use Rattle.std.specs.Prelude.{◌≡◌, ◌++◌, OnOk};
ghost use Rattle.std.specs.Option.{option_copied};
ghost use Rattle.std.specs.String.{string_bytes};
ghost use Rattle.hs_print.specs.Linear.{magnitude_text, first_sign, later_sign, first_term, later_terms, later_constant, linear_text};

use crate::variables::push_variable;
use hs_numbering::Names;
use hs_pure::{Lin, Var};
use std::alloc::AllocError;

// Adds a term without its sign.
fn push_magnitude(
    out: &mut String,
    names: Option<&Names>,
    v: Var,
    size: u128,
) -> Result<(), AllocError>
    ensures { OnOk result (string_bytes out.new ≡ string_bytes out.old ++ magnitude_text (option_copied names.entry) v size) }
{
    if size == 1 {
        return push_variable(out, names, v);
    }
    write!(out, "{size}*")?;
    push_variable(out, names, v)
}

fn push_first_sign(out: &mut String, c: i128) -> Result<(), AllocError>
    ensures { OnOk result (string_bytes out.new ≡ string_bytes out.old ++ first_sign c) }
{
    if c < 0 { write!(out, "-") } else { Ok(()) }
}

fn push_later_sign(out: &mut String, c: i128) -> Result<(), AllocError>
    ensures { OnOk result (string_bytes out.new ≡ string_bytes out.old ++ later_sign c) }
{
    if c < 0 {
        write!(out, " - ")
    } else {
        write!(out, " + ")
    }
}

fn push_first_term(
    out: &mut String,
    names: Option<&Names>,
    term: (Var, i128),
) -> Result<(), AllocError>
    ensures { OnOk result (string_bytes out.new ≡ string_bytes out.old ++ first_term (option_copied names.entry) term) }
{
    push_first_sign(out, term.1)?;
    push_magnitude(out, names, term.0, term.1.unsigned_abs())
}

fn push_later_terms(
    out: &mut String,
    names: Option<&Names>,
    terms: &[(Var, i128)],
) -> Result<(), AllocError>
    ensures { OnOk result (string_bytes out.new ≡ string_bytes out.old ++ later_terms (option_copied names.entry) terms.now) }
{
    for term in terms {
        push_later_sign(out, term.1)?;
        push_magnitude(out, names, term.0, term.1.unsigned_abs())?;
    }
    Ok(())
}

fn push_later_constant(out: &mut String, c: i128) -> Result<(), AllocError>
    ensures { OnOk result (string_bytes out.new ≡ string_bytes out.old ++ later_constant c) }
{
    let size = c.unsigned_abs();
    if size == 0 {
        return Ok(());
    }
    push_later_sign(out, c)?;
    write!(out, "{size}")
}

// Adds a sum.
pub fn push_linear(out: &mut String, names: Option<&Names>, a: &Lin) -> Result<(), AllocError>
    ensures { OnOk result (string_bytes out.new ≡ string_bytes out.old ++ linear_text (option_copied names.entry) a.now) }
{
    let constant = a.constant;
    let Some((first, rest)) = a.terms.as_slice().split_first() else {
        return write!(out, "{constant}");
    };
    push_first_term(out, names, *first)?;
    push_later_terms(out, names, rest)?;
    push_later_constant(out, constant)
}
