//! Formulas of heaps.

ghost use Rattle.std.specs.Prelude.{◌≡◌, ◌++◌, OnOk, codes};
ghost use Rattle.std.specs.Option.{option_copied};
ghost use Rattle.std.specs.String.{string_bytes};
ghost use Rattle.hs_print.specs.Lists.{each_after};
ghost use Rattle.hs_print.specs.Formula.{numbered, of_text, atom_text, atoms_text, bound_text, disjunct_text, formula_text};
ghost use Rattle.hs_print.specs.Pure.{member_text};

use crate::place::Place;
use crate::pure_text::push_pure;
use crate::variables::{push_variable, push_variables};
use hs_heap::{Atom, Defs, Disjunct, Formula, NodeDef, Of, PredDef};
use hs_numbering::Names;
use hs_pure::{Pure, Var};
use std::alloc::AllocError;

// The data type of a number from 1.
fn node_of(defs: &Defs, k: u32) -> Option<&NodeDef>
    ensures { option_copied result ≡ numbered defs.now.nodes k }
{
    if k == 0 {
        return None;
    }
    defs.nodes.get(k as usize - 1)
}

// The predicate of a number from 1.
fn pred_of(defs: &Defs, k: u32) -> Option<&PredDef>
    ensures { option_copied result ≡ numbered defs.now.preds k }
{
    if k == 0 {
        return None;
    }
    defs.preds.get(k as usize - 1)
}

fn push_node(out: &mut String, defs: &Defs, k: u32) -> Result<(), AllocError>
    ensures { OnOk result (string_bytes out.new ≡ string_bytes out.old ++ of_text defs.now (Of.Node k)) }
{
    match node_of(defs, k) {
        Some(node) => {
            let name = &node.name;
            write!(out, "{name}")
        }
        None => Ok(()),
    }
}

fn push_pred(out: &mut String, defs: &Defs, k: u32) -> Result<(), AllocError>
    ensures { OnOk result (string_bytes out.new ≡ string_bytes out.old ++ of_text defs.now (Of.Pred k)) }
{
    match pred_of(defs, k) {
        Some(pred) => {
            let name = &pred.name;
            write!(out, "{name}")
        }
        None => Ok(()),
    }
}

// Adds the name of a data type or predicate.
fn push_of(out: &mut String, defs: &Defs, of: Of) -> Result<(), AllocError>
    ensures { OnOk result (string_bytes out.new ≡ string_bytes out.old ++ of_text defs.now of) }
{
    match of {
        Of::Node(k) => push_node(out, defs, k),
        Of::Pred(k) => push_pred(out, defs, k),
    }
}

fn push_atom(
    out: &mut String,
    defs: &Defs,
    names: Option<&Names>,
    a: &Atom,
) -> Result<(), AllocError>
    ensures { OnOk result (string_bytes out.new ≡ string_bytes out.old ++ atom_text defs.now (option_copied names.entry) a.now) }
{
    push_variable(out, names, a.root)?;
    write!(out, "::")?;
    push_of(out, defs, a.of)?;
    write!(out, "<")?;
    push_variables(out, names, a.args.as_slice())?;
    write!(out, ">")
}

fn push_more_atoms(
    out: &mut String,
    defs: &Defs,
    names: Option<&Names>,
    atoms: &[Atom],
) -> Result<(), AllocError>
    ensures { OnOk result (string_bytes out.new ≡ string_bytes out.old ++ each_after (codes " * ") (atom_text defs.now (option_copied names.entry)) atoms.now) }
{
    for atom in atoms {
        write!(out, " * ")?;
        push_atom(out, defs, names, atom)?;
    }
    Ok(())
}

fn push_atoms(
    out: &mut String,
    defs: &Defs,
    names: Option<&Names>,
    atoms: &[Atom],
) -> Result<(), AllocError>
    ensures { OnOk result (string_bytes out.new ≡ string_bytes out.old ++ atoms_text defs.now (option_copied names.entry) atoms.now) }
{
    let Some((first, rest)) = atoms.split_first() else {
        return write!(out, "emp");
    };
    push_atom(out, defs, names, first)?;
    push_more_atoms(out, defs, names, rest)
}

fn push_bound(out: &mut String, names: Option<&Names>, bound: &[Var]) -> Result<(), AllocError>
    ensures { OnOk result (string_bytes out.new ≡ string_bytes out.old ++ bound_text (option_copied names.entry) bound.now) }
{
    if bound.is_empty() {
        return Ok(());
    }
    write!(out, "exists ")?;
    push_variables(out, names, bound)?;
    write!(out, ". ")
}

// Adds conjuncts, each after an and.
fn push_conjuncts(out: &mut String, names: Option<&Names>, ps: &[Pure]) -> Result<(), AllocError>
    ensures { OnOk result (string_bytes out.new ≡ string_bytes out.old ++ each_after (codes " & ") (member_text (option_copied names.entry)) ps.now) }
{
    for p in ps {
        write!(out, " & ")?;
        push_pure(out, names, Place::Member, p)?;
    }
    Ok(())
}

fn push_disjunct(
    out: &mut String,
    defs: &Defs,
    names: Option<&Names>,
    d: &Disjunct,
) -> Result<(), AllocError>
    ensures { OnOk result (string_bytes out.new ≡ string_bytes out.old ++ disjunct_text defs.now (option_copied names.entry) d.now) }
{
    push_bound(out, names, d.bound.as_slice())?;
    push_atoms(out, defs, names, d.atoms.as_slice())?;
    push_conjuncts(out, names, d.pure.as_slice())
}

fn push_more_disjuncts(
    out: &mut String,
    defs: &Defs,
    names: Option<&Names>,
    ds: &[Disjunct],
) -> Result<(), AllocError>
    ensures { OnOk result (string_bytes out.new ≡ string_bytes out.old ++ each_after (codes " or ") (disjunct_text defs.now (option_copied names.entry)) ds.now) }
{
    for d in ds {
        write!(out, " or ")?;
        push_disjunct(out, defs, names, d)?;
    }
    Ok(())
}

// Adds a formula.
pub fn push_formula(
    out: &mut String,
    defs: &Defs,
    names: Option<&Names>,
    f: &Formula,
) -> Result<(), AllocError>
    ensures { OnOk result (string_bytes out.new ≡ string_bytes out.old ++ formula_text defs.now (option_copied names.entry) f.now) }
{
    let Some((first, rest)) = f.cases.as_slice().split_first() else {
        return write!(out, "none");
    };
    push_disjunct(out, defs, names, first)?;
    push_more_disjuncts(out, defs, names, rest)
}
