//! Variables.

ghost use Rattle.std.specs.Prelude.{◌≡◌, ◌++◌, OnOk, codes};
ghost use Rattle.std.specs.Option.{option_copied};
ghost use Rattle.std.specs.String.{string_bytes};
ghost use Rattle.hs_print.specs.Lists.{each_after};
ghost use Rattle.hs_print.specs.Formula.{variables_text};
ghost use Rattle.hs_print.specs.Variable.{numbered_text, named_text, variable_text};

use crate::source_names::shown_name;
use hs_numbering::Names;
use hs_pure::Var;
use std::alloc::AllocError;

fn push_numbered(out: &mut String, v: Var) -> Result<(), AllocError>
    ensures { OnOk result (string_bytes out.new ≡ string_bytes out.old ++ numbered_text v) }
{
    let number = v.number;
    if v.bag {
        write!(out, "V{number}")
    } else {
        write!(out, "v{number}")
    }
}

// Adds a variable by its source name, or by its number where it has none.
pub fn push_named(out: &mut String, names: &Names, v: Var) -> Result<(), AllocError>
    ensures { OnOk result (string_bytes out.new ≡ string_bytes out.old ++ named_text names.now v) }
{
    let number = v.number;
    match shown_name(names, number) {
        Some(name) => write!(out, "{name}"),
        None if v.bag => write!(out, "V${number}"),
        None => write!(out, "v${number}"),
    }
}

// Adds a variable; without names in numbered form.
pub fn push_variable(out: &mut String, names: Option<&Names>, v: Var) -> Result<(), AllocError>
    ensures { OnOk result (string_bytes out.new ≡ string_bytes out.old ++ variable_text (option_copied names.entry) v) }
{
    match names {
        Some(names) => push_named(out, names, v),
        None => push_numbered(out, v),
    }
}

fn push_more_variables(
    out: &mut String,
    names: Option<&Names>,
    vars: &[Var],
) -> Result<(), AllocError>
    ensures { OnOk result (string_bytes out.new ≡ string_bytes out.old ++ each_after (codes ", ") (variable_text (option_copied names.entry)) vars.now) }
{
    for v in vars {
        write!(out, ", ")?;
        push_variable(out, names, *v)?;
    }
    Ok(())
}

// Adds variables with commas between them.
pub fn push_variables(
    out: &mut String,
    names: Option<&Names>,
    vars: &[Var],
) -> Result<(), AllocError>
    ensures { OnOk result (string_bytes out.new ≡ string_bytes out.old ++ variables_text (option_copied names.entry) vars.now) }
{
    let Some((first, rest)) = vars.split_first() else {
        return Ok(());
    };
    push_variable(out, names, *first)?;
    push_more_variables(out, names, rest)
}
