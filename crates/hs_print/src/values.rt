//! Valuations.

ghost use Rattle.std.specs.Prelude.{◌≡◌, ◌++◌, IfOk, OnOk, codes, filter};
ghost use Rattle.std.specs.String.{string_bytes};
ghost use Rattle.hs_pure.specs.Eval.{found, found_bag};
ghost use Rattle.hs_print.specs.Lists.{each_after, separated};
ghost use Rattle.hs_print.specs.Valuation.{element_text, value_text, assignment_text, is_named, valuation_text};

use crate::source_names::source_name;
use crate::variables::push_named;
use hs_numbering::Names;
use hs_pure::{Valuation, Var};
use std::alloc::{AllocError, Global};

fn push_element(out: &mut String, element: (i128, i128)) -> Result<(), AllocError>
    ensures { OnOk result (string_bytes out.new ≡ string_bytes out.old ++ element_text element) }
{
    let (value, count) = element;
    write!(out, "{value}:{count}")
}

fn push_more_elements(out: &mut String, elements: &[(i128, i128)]) -> Result<(), AllocError>
    ensures { OnOk result (string_bytes out.new ≡ string_bytes out.old ++ each_after (codes ", ") element_text elements.now) }
{
    for element in elements {
        write!(out, ", ")?;
        push_element(out, *element)?;
    }
    Ok(())
}

fn push_elements(out: &mut String, elements: &[(i128, i128)]) -> Result<(), AllocError>
    ensures { OnOk result (string_bytes out.new ≡ string_bytes out.old ++ separated (codes ", ") element_text elements.now) }
{
    let Some((first, rest)) = elements.split_first() else {
        return Ok(());
    };
    push_element(out, *first)?;
    push_more_elements(out, rest)
}

// The value of a variable: its first pair counts, and without one it is 0.
fn number_of(v: &Valuation, x: Var) -> i128
    ensures { result ≡ found v.now.numbers x }
{
    for n in v.numbers.as_slice() {
        if n.0 == x {
            return n.1;
        }
    }
    0
}

// Adds the elements of a bag variable: its first pair counts.
fn push_bag_of(out: &mut String, v: &Valuation, x: Var) -> Result<(), AllocError>
    ensures { OnOk result (string_bytes out.new ≡ string_bytes out.old ++ separated (codes ", ") element_text (found_bag v.now.bags x)) }
{
    for bag in v.bags.as_slice() {
        if bag.0 == x {
            return push_elements(out, bag.1.as_slice());
        }
    }
    Ok(())
}

fn push_value(out: &mut String, v: &Valuation, x: Var) -> Result<(), AllocError>
    ensures { OnOk result (string_bytes out.new ≡ string_bytes out.old ++ value_text v.now x) }
{
    if !x.bag {
        let number = number_of(v, x);
        return write!(out, "{number}");
    }
    write!(out, "{{")?;
    push_bag_of(out, v, x)?;
    write!(out, "}}")
}

fn push_assignment(out: &mut String, names: &Names, v: &Valuation, x: Var) -> Result<(), AllocError>
    ensures { OnOk result (string_bytes out.new ≡ string_bytes out.old ++ assignment_text names.now v.now x) }
{
    push_named(out, names, x)?;
    write!(out, "=")?;
    push_value(out, v, x)
}

fn is_named_by(names: &Names, x: Var) -> bool
    ensures { result ≡ is_named names.now x }
{
    source_name(names, x.number).is_some()
}

fn push_more_assignments(
    out: &mut String,
    of: &[Var],
    v: &Valuation,
    names: &Names,
) -> Result<(), AllocError>
    ensures { OnOk result (string_bytes out.new ≡ string_bytes out.old ++ each_after (codes ", ") (assignment_text names.now v.now) of.now) }
{
    for x in of {
        write!(out, ", ")?;
        push_assignment(out, names, v, *x)?;
    }
    Ok(())
}

fn push_assignments(
    out: &mut String,
    of: &[Var],
    v: &Valuation,
    names: &Names,
) -> Result<(), AllocError>
    ensures { OnOk result (string_bytes out.new ≡ string_bytes out.old ++ separated (codes ", ") (assignment_text names.now v.now) of.now) }
{
    let Some((first, rest)) = of.split_first() else {
        return Ok(());
    };
    push_assignment(out, names, v, *first)?;
    push_more_assignments(out, rest, v, names)
}

// The variables that have a source name.
fn named(alloc: Global, of: &[Var], names: &Names) -> Result<Vec<Var>, AllocError>
    ensures { IfOk result (λ vars. vars.items ≡ filter (is_named names.now) of.now) }
{
    of.iter()
        .copied()
        .filter(|x| is_named_by(names, *x))
        .collect(alloc)
}

// Adds the values of those variables that have a source name.
pub fn push_valuation(
    alloc: Global,
    out: &mut String,
    of: &[Var],
    v: &Valuation,
    names: &Names,
) -> Result<(), AllocError>
    ensures { OnOk result (string_bytes out.new ≡ string_bytes out.old ++ valuation_text names.now of.now v.now) }
{
    let vars = named(alloc, of, names)?;
    push_assignments(out, &vars, v, names)
}
