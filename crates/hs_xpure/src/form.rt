//! Atoms and bodies at a level.

ghost use Rattle.std.specs.Prelude.{◌≡◌, ◌+◌, ◌≤◌, ◌^◌, ◌∷◌, ◌++◌, [], IfOk, OnOk};
ghost use Rattle.hs_heap.specs.declared.formula.Of.TheVariants.{Pred};
ghost use Rattle.hs_heap.specs.Sound.{IsSound};
ghost use Rattle.hs_heap.specs.Instance.{body_of};
ghost use Rattle.hs_xpure.specs.Approximation.{combined, atoms_formed as atoms_formed_of, case_of as case_of_atoms, body_cases as body_cases_of, body_of_cases, inv_of, form};
ghost use Rattle.hs_xpure.specs.Counts.{of_taken, atoms_taken, body_taken, pred_taken};
ghost use Rattle.hs_xpure.specs.Invariants.{pred_atom};
ghost use Rattle.hs_xpure.specs.Laws.{AtomsFit};

use crate::formed::Formed;
use crate::formulas::{alone, conjunction, disjunction, node_formed, push_all_apart};
use hs_heap::{Atom, Defs, Of, instantiate, instantiate_inv};
use hs_pure::{NoMemory, Pure, Var};
use sqlite_items::Items;
use std::alloc::Global;

/// Atoms at a level, one after another.
#[cycle(form)]
pub fn atoms_formed(
    alloc: Global,
    defs: &Defs,
    level: u32,
    atoms: &[Atom],
    next: u32,
) -> Result<Formed, NoMemory>
    requires sound { IsSound defs.now }
    requires fits { AtomsFit defs.now atoms.now next }
    requires room { next + atoms_taken (pred_taken defs.now level) atoms.now ≤ 2 ^ 31 }
    ensures { IfOk result (λ f. f ≡ atoms_formed_of (form defs.now level) atoms.now next) }
{
    let mut all = Formed::new(alloc, next);
    for atom in atoms {
        let one = atom_formed(alloc, defs, level, atom, all.next)?;
        all.append(one)?;
    }
    Ok(all)
}

// A node has an address; a predicate has its invariant, and above level 0 its body of the level below.
#[cycle(form)]
fn atom_formed(
    alloc: Global,
    defs: &Defs,
    level: u32,
    atom: &Atom,
    next: u32,
) -> Result<Formed, NoMemory>
    requires sound { IsSound defs.now }
    requires fits { AtomsFit defs.now (atom.now ∷ []) next }
    requires room { next + of_taken (pred_taken defs.now level) atom.now.of ≤ 2 ^ 31 }
    ensures { IfOk result (λ f. f ≡ form defs.now level atom.now next) }
{
    let (root, args) = (atom.root, atom.args.as_slice());
    match atom.of {
        Of::Node(_) => node_formed(alloc, root, next),
        Of::Pred(pred) => {
            let inv = inv_formed(alloc, defs, pred, root, args, next)?;
            if level == 0 {
                return Ok(inv);
            }
            let cases = body_cases(alloc, defs, level - 1, pred, root, args, inv.next)?;
            with_body(alloc, inv, cases)
        }
    }
}

/// The cases of a predicate's body at a root and arguments, a conjunct each.
#[cycle(form)]
pub fn body_cases(
    alloc: Global,
    defs: &Defs,
    level: u32,
    pred: u32,
    root: Var,
    args: &[Var],
    next: u32,
) -> Result<Formed, NoMemory>
    requires sound { IsSound defs.now }
    requires fits { AtomsFit defs.now (pred_atom pred root args.now ∷ []) next }
    requires room { next + body_taken (pred_taken defs.now level) (body_of defs.now (Pred pred)) ≤ 2 ^ 31 }
    ensures { IfOk result (λ f. f ≡ body_cases_of (form defs.now level) (body_of defs.now (Pred pred)) root args.now next) }
{
    let (body, first) = instantiate(alloc, defs, pred, root, args, next)?;
    let mut all = Formed::new(alloc, first);
    for case in body.cases.as_slice() {
        let atoms = atoms_formed(alloc, defs, level, case.atoms.as_slice(), all.next)?;
        let one = case_of(alloc, case.pure.as_slice(), atoms)?;
        all.append(one)?;
    }
    Ok(all)
}

// The invariant of a predicate at a root and arguments.
fn inv_formed(
    alloc: Global,
    defs: &Defs,
    pred: u32,
    root: Var,
    args: &[Var],
    next: u32,
) -> Result<Formed, NoMemory>
    requires sound { IsSound defs.now }
    requires fits { AtomsFit defs.now (pred_atom pred root args.now ∷ []) next }
    requires room { next ≤ 2 ^ 31 }
    ensures { IfOk result (λ f. f ≡ inv_of defs.now pred root args.now next) }
{
    let (inv, next) = instantiate_inv(alloc, defs, pred, root, args, next)?;
    let pure = alone(alloc, inv)?;
    Ok(Formed {
        pure,
        addresses: Items::new(alloc),
        next,
    })
}

// An invariant and the cases of a body, joined by "or".
fn with_body(alloc: Global, inv: Formed, cases: Formed) -> Result<Formed, NoMemory>
    ensures { IfOk result (λ f. f ≡ combined inv (body_of_cases cases)) }
{
    let Formed {
        pure,
        addresses,
        next,
    } = cases;
    let body = Formed {
        pure: alone(alloc, disjunction(pure))?,
        addresses,
        next,
    };
    let mut all = inv;
    all.append(body)?;
    Ok(all)
}

// What is formed of the atoms of a case, its conjuncts, and its addresses apart, as one conjunct.
fn case_of(alloc: Global, conjuncts: &[Pure], atoms: Formed) -> Result<Formed, NoMemory>
    ensures { IfOk result (λ f. f ≡ case_of_atoms conjuncts.now atoms) }
{
    let Formed {
        mut pure,
        addresses,
        next,
    } = atoms;
    push_copies(alloc, &mut pure, conjuncts)?;
    push_all_apart(alloc, &mut pure, addresses.as_slice())?;
    let pure = alone(alloc, conjunction(pure))?;
    Ok(Formed {
        pure,
        addresses,
        next,
    })
}

fn push_copies(alloc: Global, ps: &mut Items<Pure>, more: &[Pure]) -> Result<(), NoMemory>
    ensures { OnOk result (ps.new ≡ ps.old ++ more.now) }
{
    for p in more {
        ps.push(p.copy(alloc)?)?;
    }
    Ok(())
}
