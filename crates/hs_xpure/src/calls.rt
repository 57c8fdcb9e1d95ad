//! What is told of atoms and of bodies.

ghost use Rattle.std.specs.Prelude.{◌≡◌, ◌+◌, ◌<◌, ◌≤◌, ◌^◌, ◌∷◌, [], IfOk, IsErrOf};
ghost use Rattle.hs_heap.specs.declared.formula.Of.TheVariants.{Pred};
ghost use Rattle.hs_heap.specs.Sound.{IsSound};
ghost use Rattle.hs_heap.specs.Instance.{body_of};
ghost use Rattle.hs_xpure.specs.Approximation.{approximation_of, next_of, xpure_of, body_pure, body_next};
ghost use Rattle.hs_xpure.specs.Invariants.{pred_atom};
ghost use Rattle.hs_xpure.specs.Laws.{AtomsFit};
ghost use Rattle.hs_xpure.specs.declared.error.XError.TheVariants.{Numbers};

use crate::counts::{numbers_of_atoms, numbers_of_body};
use crate::error::XError;
use crate::form::{atoms_formed, body_cases};
use crate::formed::Formed;
use crate::formulas::{conjunction, disjunction, push_all_apart};
use hs_heap::{Atom, Defs};
use hs_pure::{Pure, Var};
use sqlite_items::Items;
use std::alloc::Global;

// More new numbers are refused.
const MOST: u32 = 1_073_741_824;

/// The conjuncts of the approximation of atoms at a level, and the next unused number: what is true of numbers and
/// bags wherever a heap satisfies the atoms. New variables are numbered from `fresh` on. The definitions are sound,
/// the atoms fit them and have numbers below `fresh`, which is at most 2^30, and the level is at most 3.
///
/// `Numbers` comes only where it takes more than 2^30 new numbers, and then at once. `Memory` comes where there is
/// none.
pub fn approximation(
    alloc: Global,
    defs: &Defs,
    level: u32,
    atoms: &[Atom],
    fresh: u32,
) -> Result<(Items<Pure>, u32), XError>
    requires sound { IsSound defs.now }
    requires fits { AtomsFit defs.now atoms.now fresh }
    requires small { fresh ≤ 2 ^ 30 }
    requires level { level ≤ 3 }
    ensures exact { IfOk result (λ r. r.0 ≡ approximation_of defs.now level atoms.now fresh) }
    ensures next { IfOk result (λ r. r.1 ≡ next_of defs.now level atoms.now fresh) }
    ensures few { IfOk result (λ r. r.1 ≤ fresh + 2 ^ 30) }
    ensures numbers { IsErrOf result Numbers → fresh + 2 ^ 30 < next_of defs.now level atoms.now fresh }
{
    let taken = numbers_of_atoms(alloc, defs, level, atoms)?;
    if taken > MOST {
        return Err(XError::Numbers);
    }
    let Formed {
        mut pure,
        addresses,
        next,
    } = atoms_formed(alloc, defs, level, atoms, fresh)?;
    push_all_apart(alloc, &mut pure, addresses.as_slice())?;
    Ok((pure, next))
}

/// The approximation as one formula, and the next unused number. Conditions and refusals are those of
/// `approximation`.
pub fn xpure(
    alloc: Global,
    defs: &Defs,
    level: u32,
    atoms: &[Atom],
    fresh: u32,
) -> Result<(Pure, u32), XError>
    requires sound { IsSound defs.now }
    requires fits { AtomsFit defs.now atoms.now fresh }
    requires small { fresh ≤ 2 ^ 30 }
    requires level { level ≤ 3 }
    ensures exact { IfOk result (λ r. r.0 ≡ xpure_of defs.now level atoms.now fresh) }
    ensures next { IfOk result (λ r. r.1 ≡ next_of defs.now level atoms.now fresh) }
    ensures few { IfOk result (λ r. r.1 ≤ fresh + 2 ^ 30) }
    ensures numbers { IsErrOf result Numbers → fresh + 2 ^ 30 < next_of defs.now level atoms.now fresh }
{
    let (pure, next) = approximation(alloc, defs, level, atoms, fresh)?;
    Ok((conjunction(pure), next))
}

/// The approximation of a predicate's body at a root and arguments, which fit the predicate and have numbers below
/// `fresh`, and the next unused number. The predicate is given by number from 1. Other conditions and the refusals
/// are those of `approximation`.
pub fn body(
    alloc: Global,
    defs: &Defs,
    pred: u32,
    level: u32,
    root: Var,
    args: &[Var],
    fresh: u32,
) -> Result<(Pure, u32), XError>
    requires sound { IsSound defs.now }
    requires fits { AtomsFit defs.now (pred_atom pred root args.now ∷ []) fresh }
    requires small { fresh ≤ 2 ^ 30 }
    requires level { level ≤ 3 }
    ensures exact { IfOk result (λ r. r.0 ≡ body_pure defs.now level (body_of defs.now (Pred pred)) root args.now fresh) }
    ensures next { IfOk result (λ r. r.1 ≡ body_next defs.now level (body_of defs.now (Pred pred)) root args.now fresh) }
    ensures few { IfOk result (λ r. r.1 ≤ fresh + 2 ^ 30) }
    ensures numbers { IsErrOf result Numbers → fresh + 2 ^ 30 < body_next defs.now level (body_of defs.now (Pred pred)) root args.now fresh }
{
    let taken = numbers_of_body(alloc, defs, level, pred)?;
    if taken > MOST {
        return Err(XError::Numbers);
    }
    let Formed {
        pure,
        addresses,
        next,
    } = body_cases(alloc, defs, level, pred, root, args, fresh)?;
    Ok((disjunction(pure), next))
}
