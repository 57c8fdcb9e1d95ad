//! Pure formulas.

ghost use Rattle.std.specs.Prelude.{◌≡◌, ◌++◌, OnOk, map};
ghost use Rattle.std.specs.Option.{option_copied};
ghost use Rattle.std.specs.String.{string_bytes};
ghost use Rattle.hs_print.specs.Pure as spec;

use crate::bag::push_bag;
use crate::linear::push_linear;
use crate::place::{Place, Signs, class_of, closing, equation_sign, opening};
use crate::variables::push_variable;
use hs_numbering::Names;
use hs_pure::{Bag, Lin, Pure, Var};
use std::alloc::AllocError;

// Adds two sums with a sign between them, and what closes the formula.
fn push_sums(
    out: &mut String,
    names: Option<&Names>,
    a: &Lin,
    sign: &str,
    b: &Lin,
    after: &str,
) -> Result<(), AllocError>
    ensures { OnOk result (string_bytes out.new ≡ string_bytes out.old ++ (spec.sums_text (option_copied names.entry) a.now sign.now b.now ++ after.now)) }
{
    push_linear(out, names, a)?;
    write!(out, "{sign}")?;
    push_linear(out, names, b)?;
    write!(out, "{after}")
}

// Adds two bags in the same way.
fn push_bags(
    out: &mut String,
    names: Option<&Names>,
    a: &Bag,
    sign: &str,
    b: &Bag,
    after: &str,
) -> Result<(), AllocError>
    ensures { OnOk result (string_bytes out.new ≡ string_bytes out.old ++ (spec.bags_text (option_copied names.entry) a.now sign.now b.now ++ after.now)) }
{
    push_bag(out, names, a)?;
    write!(out, "{sign}")?;
    push_bag(out, names, b)?;
    write!(out, "{after}")
}

fn push_membership(
    out: &mut String,
    names: Option<&Names>,
    a: &Lin,
    b: &Bag,
    after: &str,
) -> Result<(), AllocError>
    ensures { OnOk result (string_bytes out.new ≡ string_bytes out.old ++ (spec.membership_text (option_copied names.entry) a.now b.now ++ after.now)) }
{
    push_linear(out, names, a)?;
    write!(out, " in ")?;
    push_bag(out, names, b)?;
    write!(out, "{after}")
}

fn push_divides(
    out: &mut String,
    names: Option<&Names>,
    d: &i128,
    a: &Lin,
) -> Result<(), AllocError>
    ensures { OnOk result (string_bytes out.new ≡ string_bytes out.old ++ spec.divides_text (option_copied names.entry) d.now a.now) }
{
    write!(out, "divides({d}, ")?;
    push_linear(out, names, a)?;
    write!(out, ")")
}

// Adds what an `all` binds, and its bag.
fn push_each_of(out: &mut String, names: Option<&Names>, u: Var, b: &Bag) -> Result<(), AllocError>
    ensures { OnOk result (string_bytes out.new ≡ string_bytes out.old ++ spec.each_of_text (option_copied names.entry) u b.now) }
{
    write!(out, "all ")?;
    push_variable(out, names, u)?;
    write!(out, " in ")?;
    push_bag(out, names, b)?;
    write!(out, ": (")
}

// Adds a quantifier with its word.
#[cycle(formula)]
fn push_quantified(
    out: &mut String,
    names: Option<&Names>,
    word: &str,
    u: Var,
    p: &Pure,
) -> Result<(), AllocError>
    ensures { OnOk result (string_bytes out.new ≡ string_bytes out.old ++ spec.quantified_text (option_copied names.entry) word.now u (spec.printed (option_copied names.entry) p.now)) }
{
    write!(out, "{word}")?;
    push_variable(out, names, u)?;
    write!(out, ". ")?;
    push_pure(out, names, Place::Alone, p)?;
    write!(out, ")")
}

// Adds the members of an `And` or `Or` or the word for none, and what closes the formula.
#[cycle(formula)]
fn push_members(
    out: &mut String,
    names: Option<&Names>,
    signs: Signs,
    ps: &[Pure],
    after: &str,
) -> Result<(), AllocError>
    ensures { OnOk result (string_bytes out.new ≡ string_bytes out.old ++ (spec.members_text signs (map (spec.printed (option_copied names.entry)) ps.now) ++ after.now)) }
{
    if ps.is_empty() {
        let none = signs.none();
        return write!(out, "{none}{after}");
    }
    let mut sign = "";
    for p in ps {
        write!(out, "{sign}")?;
        push_pure(out, names, Place::Member, p)?;
        sign = signs.between();
    }
    write!(out, "{after}")
}

// Adds a formula as it stands at a place.
#[cycle(formula)]
pub fn push_pure(
    out: &mut String,
    names: Option<&Names>,
    place: Place,
    p: &Pure,
) -> Result<(), AllocError>
    ensures { OnOk result (string_bytes out.new ≡ string_bytes out.old ++ spec.text_at place (spec.printed (option_copied names.entry) p.now)) }
{
    let class = class_of(p);
    let before = opening(place, class);
    let after = closing(place, class);
    write!(out, "{before}")?;
    match p {
        Pure::Eq(a, b) => push_sums(out, names, a, equation_sign(place), b, after),
        Pure::Lt(a, b) => push_sums(out, names, a, " < ", b, after),
        Pure::Le(a, b) => push_sums(out, names, a, " <= ", b, after),
        Pure::Divides(d, a) => push_divides(out, names, d, a),
        Pure::BagEq(a, b) => push_bags(out, names, a, equation_sign(place), b, after),
        Pure::Subset(a, b) => push_bags(out, names, a, " subset ", b, after),
        Pure::Member(a, b) => push_membership(out, names, a, b, after),
        Pure::AllOf(u, b, p) => {
            push_each_of(out, names, *u, b)?;
            push_pure(out, names, Place::Alone, p.get())?;
            write!(out, ")")
        }
        Pure::Not(p) => {
            push_pure(out, names, Place::Denied, p.get())?;
            write!(out, "{after}")
        }
        Pure::And(ps) => push_members(out, names, Signs::And, ps.as_slice(), after),
        Pure::Or(ps) => push_members(out, names, Signs::Or, ps.as_slice(), after),
        Pure::Exists(u, p) => push_quantified(out, names, "(exists ", *u, p.get()),
        Pure::Forall(u, p) => push_quantified(out, names, "(forall ", *u, p.get()),
    }
}
