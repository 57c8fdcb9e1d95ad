//! The calls and their answers.
ghost use Rattle.std.specs.Prelude.{◌≡◌, ◌<◌, ◌≤◌, ◌-◌, ◌^◌, [], ◌∷◌, length, Some, None, MatchOption};
ghost use Rattle.hs_heap.specs.Instance.{lemma_at};
ghost use Rattle.hs_heap.specs.Sound.{IsSound};
ghost use Rattle.hs_xpure.specs.Invariants.{pred_atom};
ghost use Rattle.hs_xpure.specs.Laws.{AtomsFit};

use crate::given::NoRow;
use hs_heap::{Atom, Defs, Lemma, Of, instantiate, instantiate_inv, instantiate_lemma};
use hs_norm::Resolved;
use hs_pred_lines::predicate_lines;
use hs_print::{numbered_formula, numbered_pure, text};
use hs_pure::{Pure, Var};
use hs_wf::{WfError, founded};
use hs_xpure::{XError, body, xpure};
use std::alloc::Global;

// The name of a predicate, by number from 1.
fn push_pred(out: &mut String, defs: &Defs, pred: u32) -> Result<(), NoRow> {
    match defs.preds.as_slice().get((pred as usize).wrapping_sub(1)) {
        Some(p) => {
            let name = &p.name;
            write!(out, "predicate {name}")?;
            Ok(())
        }
        None => Err(NoRow),
    }
}

fn push_variable(out: &mut String, v: Var) -> Result<(), NoRow> {
    let number = v.number;
    let letter = if v.bag { 'V' } else { 'v' };
    write!(out, "{letter}{number}")?;
    Ok(())
}

fn push_fault(out: &mut String, defs: &Defs, fault: WfError) -> Result<(), NoRow> {
    match fault {
        WfError::RootPredicate(pred, case) => {
            push_pred(out, defs, pred)?;
            write!(out, " case {case}: predicate at the root")?;
        }
        WfError::NoRoot(pred, case) => {
            push_pred(out, defs, pred)?;
            write!(out, " case {case}: no node at the root")?;
        }
        WfError::Unreached(pred, case, v) => {
            push_pred(out, defs, pred)?;
            write!(out, " case {case}: unreached root ")?;
            push_variable(out, v)?;
        }
        WfError::Memory => return Err(NoRow),
    }
    Ok(())
}

/// Whether the definitions are founded.
pub fn push_founded(alloc: Global, out: &mut String, defs: &Defs) -> Result<(), NoRow>
    requires sound { IsSound defs.now }
{
    if defs.preds.len() > 1000 {
        return Err(NoRow);
    }
    match founded(alloc, defs) {
        Ok(()) => {
            write!(out, "founded")?;
            Ok(())
        }
        Err(fault) => push_fault(out, defs, fault),
    }
}

// A pure formula and the next unused number.
fn push_pure(
    alloc: Global,
    out: &mut String,
    answer: Result<(Pure, u32), XError>,
) -> Result<(), NoRow> {
    match answer {
        Ok((p, next)) => {
            let p = Box::new(alloc, p)?;
            let text = numbered_pure(alloc, &p)?;
            write!(out, "{text}; {next}")?;
            Ok(())
        }
        Err(XError::Numbers) => {
            write!(out, "numbers spent")?;
            Ok(())
        }
        Err(XError::Memory) => Err(NoRow),
    }
}

/// The approximation of atoms at a level.
pub fn push_xpure(
    alloc: Global,
    out: &mut String,
    defs: &Defs,
    level: u32,
    atoms: &[Atom],
    fresh: u32,
) -> Result<(), NoRow>
    requires sound { IsSound defs.now }
    requires fits { AtomsFit defs.now atoms.now fresh }
    requires small { fresh ≤ 2 ^ 30 }
    requires level { level ≤ 3 }
{
    push_pure(alloc, out, xpure(alloc, defs, level, atoms, fresh))
}

/// The approximation of the body of the one atom's predicate at its root and arguments.
pub fn push_body(
    alloc: Global,
    out: &mut String,
    defs: &Defs,
    level: u32,
    atoms: &[Atom],
    fresh: u32,
) -> Result<(), NoRow>
    requires sound { IsSound defs.now }
    requires fits { AtomsFit defs.now atoms.now fresh }
    requires small { fresh ≤ 2 ^ 30 }
    requires level { level ≤ 3 }
{
    let [atom] = atoms else {
        return Err(NoRow);
    };
    let Of::Pred(pred) = atom.of else {
        return Err(NoRow);
    };
    push_body_at(
        alloc,
        out,
        defs,
        pred,
        level,
        atom.root,
        atom.args.as_slice(),
        fresh,
    )
}

fn push_body_at(
    alloc: Global,
    out: &mut String,
    defs: &Defs,
    pred: u32,
    level: u32,
    root: Var,
    args: &[Var],
    fresh: u32,
) -> Result<(), NoRow>
    requires sound { IsSound defs.now }
    requires fits { AtomsFit defs.now (pred_atom pred root args.now ∷ []) fresh }
    requires small { fresh ≤ 2 ^ 30 }
    requires level { level ≤ 3 }
{
    push_pure(
        alloc,
        out,
        body(alloc, defs, pred, level, root, args, fresh),
    )
}

/// The body of the one atom's predicate at its root and arguments.
pub fn push_instantiated(
    alloc: Global,
    out: &mut String,
    defs: &Defs,
    atoms: &[Atom],
    fresh: u32,
) -> Result<(), NoRow>
    requires sound { IsSound defs.now }
    requires fits { AtomsFit defs.now atoms.now fresh }
    requires small { fresh ≤ 2 ^ 30 }
{
    let [atom] = atoms else {
        return Err(NoRow);
    };
    let Of::Pred(pred) = atom.of else {
        return Err(NoRow);
    };
    push_instantiated_at(
        alloc,
        out,
        defs,
        pred,
        atom.root,
        atom.args.as_slice(),
        fresh,
    )
}

#[tactic(auto, using(crate::proofs::Fit::has_room))]
fn push_instantiated_at(
    alloc: Global,
    out: &mut String,
    defs: &Defs,
    pred: u32,
    root: Var,
    args: &[Var],
    fresh: u32,
) -> Result<(), NoRow>
    requires sound { IsSound defs.now }
    requires fits { AtomsFit defs.now (pred_atom pred root args.now ∷ []) fresh }
    requires small { fresh ≤ 2 ^ 30 }
{
    let (f, next) = instantiate(alloc, defs, pred, root, args, fresh)?;
    let text = numbered_formula(alloc, &f, defs)?;
    write!(out, "{text}; {next}")?;
    Ok(())
}

/// The lines of predicates in a report.
pub fn push_lines(alloc: Global, out: &mut String, r: &Resolved, atoms: u64) -> Result<(), NoRow>
    requires sound { IsSound r.now.defs }
    requires named { length r.now.pred_names ≡ length r.now.defs.preds }
    requires few { length r.now.defs.preds < 2 ^ 32 - 1 }
    requires small { atoms ≤ 2 ^ 30 }
{
    let (lines, _) = predicate_lines(alloc, r, atoms)?;
    let text = text(alloc, &lines)?;
    for line in text.lines() {
        write!(out, "  {line}\n")?;
    }
    Ok(())
}

/// The invariant of the one atom's predicate at its root and arguments.
pub fn push_invariant(
    alloc: Global,
    out: &mut String,
    defs: &Defs,
    atoms: &[Atom],
    fresh: u32,
) -> Result<(), NoRow>
    requires sound { IsSound defs.now }
    requires fits { AtomsFit defs.now atoms.now fresh }
    requires small { fresh ≤ 2 ^ 30 }
{
    let [atom] = atoms else {
        return Err(NoRow);
    };
    let Of::Pred(pred) = atom.of else {
        return Err(NoRow);
    };
    push_invariant_at(
        alloc,
        out,
        defs,
        pred,
        atom.root,
        atom.args.as_slice(),
        fresh,
    )
}

#[tactic(auto, using(crate::proofs::Fit::has_room))]
fn push_invariant_at(
    alloc: Global,
    out: &mut String,
    defs: &Defs,
    pred: u32,
    root: Var,
    args: &[Var],
    fresh: u32,
) -> Result<(), NoRow>
    requires sound { IsSound defs.now }
    requires fits { AtomsFit defs.now (pred_atom pred root args.now ∷ []) fresh }
    requires small { fresh ≤ 2 ^ 30 }
{
    let (p, next) = instantiate_inv(alloc, defs, pred, root, args, fresh)?;
    let p = Box::new(alloc, p)?;
    let text = numbered_pure(alloc, &p)?;
    write!(out, "{text}; {next}")?;
    Ok(())
}

// The lemma of a number from 1.
fn lemma_of(defs: &Defs, n: u32) -> Option<&Lemma>
    ensures { MatchOption result (lemma_at defs.now n ≡ None) (λ l. lemma_at defs.now n ≡ Some l.now) }
{
    if n == 0 {
        return None;
    }
    defs.lemmas.as_slice().get(n as usize - 1)
}

/// The right side of a lemma of the one atom's predicate at its root and arguments.
pub fn push_lemma(
    alloc: Global,
    out: &mut String,
    defs: &Defs,
    number: u32,
    atoms: &[Atom],
    fresh: u32,
) -> Result<(), NoRow>
    requires sound { IsSound defs.now }
    requires fits { AtomsFit defs.now atoms.now fresh }
    requires small { fresh ≤ 2 ^ 30 }
{
    let [atom] = atoms else {
        return Err(NoRow);
    };
    let Of::Pred(pred) = atom.of else {
        return Err(NoRow);
    };
    let Some(lemma) = lemma_of(defs, number) else {
        return Err(NoRow);
    };
    if lemma.pred != pred {
        return Err(NoRow);
    }
    push_lemma_at(
        alloc,
        out,
        defs,
        number,
        lemma,
        pred,
        atom.root,
        atom.args.as_slice(),
        fresh,
    )
}

#[tactic(auto, using(crate::proofs::Fit::lemma_has_room))]
fn push_lemma_at(
    alloc: Global,
    out: &mut String,
    defs: &Defs,
    number: u32,
    lemma: &Lemma,
    pred: u32,
    root: Var,
    args: &[Var],
    fresh: u32,
) -> Result<(), NoRow>
    requires sound { IsSound defs.now }
    requires found { lemma_at defs.now number ≡ Some lemma.now }
    requires same { lemma.now.pred ≡ pred }
    requires fits { AtomsFit defs.now (pred_atom pred root args.now ∷ []) fresh }
    requires small { fresh ≤ 2 ^ 30 }
{
    let (f, next) = instantiate_lemma(alloc, defs, number, root, args, fresh)?;
    let text = numbered_formula(alloc, &f, defs)?;
    write!(out, "{text}; {next}")?;
    Ok(())
}
