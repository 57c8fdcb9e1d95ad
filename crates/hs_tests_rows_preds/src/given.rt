//! What rows give, which meets the conditions of the calls.
ghost use Rattle.std.specs.Prelude.{IfOk};
ghost use Rattle.hs_xpure.specs.Laws.{AtomsFit};
ghost use Rattle.hs_tests_rows_preds.specs.Renaming.{MayBeRenamed};

use hs_heap::{Atom, Defs, Disjunct, Formula};
use hs_lex::lex;
use hs_norm::{Resolved, normal, numbered};
use hs_pure::{NoMemory, Var};
use hs_read::{read, read_formula};
use hs_xpure::XError;
use sqlite_items::Items;
use std::alloc::{AllocError, AllocFailed, Global};

// The most bytes of a row.
const MOST_BYTES: usize = 1 << 20;

/// A row is not of the form, or memory ran out.
#[derive(Clone, Copy, Debug)]
pub struct NoRow;

impl From<AllocError> for NoRow {
    fn from(_: AllocError) -> NoRow {
        NoRow
    }
}

impl<T: Drop> From<AllocFailed<T>> for NoRow {
    fn from(_: AllocFailed<T>) -> NoRow {
        NoRow
    }
}

impl From<NoMemory> for NoRow {
    fn from(_: NoMemory) -> NoRow {
        NoRow
    }
}

impl From<XError> for NoRow {
    fn from(_: XError) -> NoRow {
        NoRow
    }
}

/// The normal form of a source.
pub fn resolved(alloc: Global, row: &str) -> Result<Resolved, NoRow> {
    if row.len() > MOST_BYTES {
        return Err(NoRow);
    }
    let Ok(tokens) = lex(alloc, row.as_bytes(), u128::MAX) else {
        return Err(NoRow);
    };
    let Ok(source) = read(alloc, &tokens, row) else {
        return Err(NoRow);
    };
    if source.items.len() > MOST_BYTES {
        return Err(NoRow);
    }
    match normal(alloc, &source) {
        Ok(resolved) => Ok(resolved),
        Err(_) => Err(NoRow),
    }
}

// The first disjunct of a formula that is written by numbers.
fn disjunct(alloc: Global, defs: &Defs, text: &str) -> Result<Disjunct, NoRow> {
    if text.len() > MOST_BYTES {
        return Err(NoRow);
    }
    let Ok(tokens) = lex(alloc, text.as_bytes(), u128::MAX) else {
        return Err(NoRow);
    };
    let Ok(tree) = read_formula(alloc, &tokens, text) else {
        return Err(NoRow);
    };
    let Ok(mut formula) = numbered(alloc, defs, &tree) else {
        return Err(NoRow);
    };
    match formula.cases.pop() {
        Some(case) => Ok(case),
        None => Err(NoRow),
    }
}

// The root and the arguments of each atom.
fn variables(alloc: Global, atoms: &[Atom]) -> Result<Items<Var>, NoRow> {
    let mut all = Items::new(alloc);
    for atom in atoms {
        all.push(atom.root)?;
        for v in atom.args.as_slice() {
            all.push(*v)?;
        }
    }
    Ok(all)
}

/// The atoms of a formula without bound variables, with numbers from 1 on and below `next`.
#[tactic(auto, using(crate::proofs::Fit::atoms_fit))]
pub fn atoms(alloc: Global, defs: &Defs, text: &str, next: u32) -> Result<Items<Atom>, NoRow>
    ensures { IfOk result (λ atoms. AtomsFit defs.now atoms next) }
{
    let case = disjunct(alloc, defs, text)?;
    let free = variables(alloc, case.atoms.as_slice())?;
    if case.fits(defs, free.as_slice(), next) {
        Ok(case.atoms)
    } else {
        Err(NoRow)
    }
}

/// A formula of atoms alone, of one disjunct.
#[tactic(auto, using(crate::proofs::Renaming::atoms_may_be_renamed))]
pub fn atoms_alone(alloc: Global, defs: &Defs, text: &str) -> Result<Formula, NoRow>
    ensures { IfOk result MayBeRenamed }
{
    let Disjunct { bound, atoms, pure } = disjunct(alloc, defs, text)?;
    if !bound.is_empty() || !pure.is_empty() {
        return Err(NoRow);
    }
    let mut cases = Items::new(alloc);
    cases.push(Disjunct {
        bound: Items::new(alloc),
        atoms,
        pure: Items::new(alloc),
    })?;
    Ok(Formula { cases })
}
