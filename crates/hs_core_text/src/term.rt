//! Terms, over the names of slots.

ghost use Rattle.std.specs.Prelude.{◌≡◌, ◌++◌, Some, OnOk};
ghost use Rattle.std.specs.String.{string_bytes};
ghost use Rattle.hs_print.specs.Linear.{magnitude_text, first_sign, later_sign, first_term, later_terms, later_constant, linear_text};
ghost use Rattle.hs_print.specs.Variable.{named_text};

use hs_numbering::Names;
use hs_print::variable;
use hs_pure::{Lin, Var};
use hs_text::NoMemory;
use std::alloc::{AllocError, Global};

fn push_variable(alloc: Global, out: &mut String, names: &Names, v: Var) -> Result<(), NoMemory>
    ensures { OnOk result (string_bytes out.new ≡ string_bytes out.old ++ named_text names.now v) }
{
    let text = variable(alloc, v, names)?;
    write!(out, "{text}")?;
    Ok(())
}

// Adds a term without its sign.
fn push_magnitude(
    alloc: Global,
    out: &mut String,
    names: &Names,
    v: Var,
    size: u128,
) -> Result<(), NoMemory>
    ensures { OnOk result (string_bytes out.new ≡ string_bytes out.old ++ magnitude_text (Some names.now) v size) }
{
    if size == 1 {
        return push_variable(alloc, out, names, v);
    }
    write!(out, "{size}*")?;
    push_variable(alloc, out, names, v)
}

fn push_first_sign(out: &mut String, c: i128) -> Result<(), AllocError>
    ensures { OnOk result (string_bytes out.new ≡ string_bytes out.old ++ first_sign c) }
{
    if c < 0 { write!(out, "-") } else { Ok(()) }
}

fn push_later_sign(out: &mut String, c: i128) -> Result<(), AllocError>
    ensures { OnOk result (string_bytes out.new ≡ string_bytes out.old ++ later_sign c) }
{
    if c < 0 {
        write!(out, " - ")
    } else {
        write!(out, " + ")
    }
}

fn push_first_term(
    alloc: Global,
    out: &mut String,
    names: &Names,
    term: (Var, i128),
) -> Result<(), NoMemory>
    ensures { OnOk result (string_bytes out.new ≡ string_bytes out.old ++ first_term (Some names.now) term) }
{
    push_first_sign(out, term.1)?;
    push_magnitude(alloc, out, names, term.0, term.1.unsigned_abs())
}

fn push_later_terms(
    alloc: Global,
    out: &mut String,
    names: &Names,
    terms: &[(Var, i128)],
) -> Result<(), NoMemory>
    ensures { OnOk result (string_bytes out.new ≡ string_bytes out.old ++ later_terms (Some names.now) terms.now) }
{
    for term in terms {
        push_later_sign(out, term.1)?;
        push_magnitude(alloc, out, names, term.0, term.1.unsigned_abs())?;
    }
    Ok(())
}

fn push_later_constant(out: &mut String, c: i128) -> Result<(), AllocError>
    ensures { OnOk result (string_bytes out.new ≡ string_bytes out.old ++ later_constant c) }
{
    let size = c.unsigned_abs();
    if size == 0 {
        return Ok(());
    }
    push_later_sign(out, c)?;
    write!(out, "{size}")
}

// Adds a term.
pub fn push_term(alloc: Global, out: &mut String, names: &Names, a: &Lin) -> Result<(), NoMemory>
    ensures { OnOk result (string_bytes out.new ≡ string_bytes out.old ++ linear_text (Some names.now) a.now) }
{
    let constant = a.constant;
    let Some((first, rest)) = a.terms.as_slice().split_first() else {
        write!(out, "{constant}")?;
        return Ok(());
    };
    push_first_term(alloc, out, names, *first)?;
    push_later_terms(alloc, out, names, rest)?;
    push_later_constant(out, constant)?;
    Ok(())
}
