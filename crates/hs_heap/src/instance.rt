ghost use Rattle.std.specs.Prelude.{◌≡◌, ◌+◌, ◌<◌, ◌^◌, ◌↔◌, ◌++◌, ◌∷◌, [], true, false, ℕ, map, length, Some, IsSome, IfOk, OnOk};
ghost use Rattle.hs_pure.specs.Stack.{Stack};
ghost use Rattle.hs_pure.specs.Truth.{TrueAt};
ghost use Rattle.hs_heap.specs.declared.formula.Of.TheVariants.{Pred};
ghost use Rattle.hs_heap.specs.declared.definitions.PredDef.{PredDef};
ghost use Rattle.hs_heap.specs.Heap.{Heap};
ghost use Rattle.hs_heap.specs.Meaning.{argument_at, is_in, self_var, pred_at, SatisfiesAtDepth};
ghost use Rattle.hs_heap.specs.Sound.{IsSound};
ghost use Rattle.hs_heap.specs.Instance.{ArgumentsFit, body_of, body_of_pred, body_of_inv, body_of_lemma, body_or_none, lemma_at, instantiated, instantiated_inv, next_after, stack_of_body};
ghost use Rattle.hs_heap.specs.Names.{IsReady, is_other_seen, other_pairs, next_number, paired, new_names};

use crate::definitions::{Defs, Lemma, PredDef};
use crate::formula::Formula;
use crate::scope::is_listed;
use crate::seen::{Seen, mark_cases, mark_disjunct, mark_pure, unseen};
use crate::sound::SELF;
use hs_pure::{NoMemory, Pure, Var};
use sqlite_items::Items;
use std::alloc::Global;

/// The body of a predicate, by number from 1, at a root and arguments: `self` is the root and each parameter its
/// argument. Each other variable, bound ones too, gets a new number: `fresh` and the numbers after it, by rising
/// number. The second part of the answer is the number after the last one taken.
pub fn instantiate(
    alloc: Global,
    defs: &Defs,
    pred: u32,
    root: Var,
    args: &[Var],
    fresh: u32,
) -> Result<(Formula, u32), NoMemory>
    requires sound { IsSound defs.now }
    requires exists { IsSome (pred_at defs.now pred) }
    requires arguments { ArgumentsFit (body_of defs.now (Pred pred)).params root args.now fresh }
    requires room { fresh + (body_of defs.now (Pred pred)).next < 2 ^ 32 }
    ensures same { IfOk result (λ r. r.0 ≡ instantiated (body_of defs.now (Pred pred)) root args.now fresh) }
    ensures next { IfOk result (λ r. r.1 ≡ next_after (body_of defs.now (Pred pred)) fresh) }
    ensures satisfied { IfOk result (λ r. (k : ℕ) (s : Stack) (h : Heap) → SatisfiesAtDepth defs.now k s h r.0 ↔ SatisfiesAtDepth defs.now k (stack_of_body (body_of defs.now (Pred pred)) (s root).number (map (argument_at s) args.now)) h (body_of defs.now (Pred pred)).formula) }
{
    put_pred(alloc, defs, pred, root, args, fresh)
}

fn put_pred(
    alloc: Global,
    defs: &Defs,
    pred: u32,
    root: Var,
    args: &[Var],
    fresh: u32,
) -> Result<(Formula, u32), NoMemory>
    requires sound { IsSound defs.now }
    requires exists { IsSome (pred_at defs.now pred) }
    requires arguments { ArgumentsFit (body_of defs.now (Pred pred)).params root args.now fresh }
    requires room { fresh + (body_of defs.now (Pred pred)).next < 2 ^ 32 }
    ensures same { IfOk result (λ r. r.0 ≡ instantiated (body_of defs.now (Pred pred)) root args.now fresh) }
    ensures next { IfOk result (λ r. r.1 ≡ next_after (body_of defs.now (Pred pred)) fresh) }
{
    match defs.pred(pred) {
        Some(found) => body_at(alloc, found, root, args, fresh),
        None => nothing(alloc, fresh),
    }
}

/// The right side of a lemma, by number from 1, at a root and arguments, as `instantiate` gives a body.
pub fn instantiate_lemma(
    alloc: Global,
    defs: &Defs,
    lemma: u32,
    root: Var,
    args: &[Var],
    fresh: u32,
) -> Result<(Formula, u32), NoMemory>
    requires sound { IsSound defs.now }
    requires exists { IsSome (lemma_at defs.now lemma) }
    requires arguments { ArgumentsFit (body_or_none body_of_lemma (lemma_at defs.now lemma)).params root args.now fresh }
    requires room { fresh + (body_or_none body_of_lemma (lemma_at defs.now lemma)).next < 2 ^ 32 }
    ensures same { IfOk result (λ r. r.0 ≡ instantiated (body_or_none body_of_lemma (lemma_at defs.now lemma)) root args.now fresh) }
    ensures next { IfOk result (λ r. r.1 ≡ next_after (body_or_none body_of_lemma (lemma_at defs.now lemma)) fresh) }
    ensures satisfied { IfOk result (λ r. (k : ℕ) (s : Stack) (h : Heap) → SatisfiesAtDepth defs.now k s h r.0 ↔ SatisfiesAtDepth defs.now k (stack_of_body (body_or_none body_of_lemma (lemma_at defs.now lemma)) (s root).number (map (argument_at s) args.now)) h (body_or_none body_of_lemma (lemma_at defs.now lemma)).formula) }
{
    put_lemma(alloc, defs, lemma, root, args, fresh)
}

fn put_lemma(
    alloc: Global,
    defs: &Defs,
    lemma: u32,
    root: Var,
    args: &[Var],
    fresh: u32,
) -> Result<(Formula, u32), NoMemory>
    requires sound { IsSound defs.now }
    requires exists { IsSome (lemma_at defs.now lemma) }
    requires arguments { ArgumentsFit (body_or_none body_of_lemma (lemma_at defs.now lemma)).params root args.now fresh }
    requires room { fresh + (body_or_none body_of_lemma (lemma_at defs.now lemma)).next < 2 ^ 32 }
    ensures same { IfOk result (λ r. r.0 ≡ instantiated (body_or_none body_of_lemma (lemma_at defs.now lemma)) root args.now fresh) }
    ensures next { IfOk result (λ r. r.1 ≡ next_after (body_or_none body_of_lemma (lemma_at defs.now lemma)) fresh) }
{
    match defs.lemma(lemma) {
        Some(found) => right_at(alloc, found, root, args, fresh),
        None => nothing(alloc, fresh),
    }
}

/// The invariant of a predicate, by number from 1, at a root and arguments, as `instantiate` gives a body.
pub fn instantiate_inv(
    alloc: Global,
    defs: &Defs,
    pred: u32,
    root: Var,
    args: &[Var],
    fresh: u32,
) -> Result<(Pure, u32), NoMemory>
    requires sound { IsSound defs.now }
    requires exists { IsSome (pred_at defs.now pred) }
    requires arguments { ArgumentsFit (body_of defs.now (Pred pred)).params root args.now fresh }
    requires room { fresh + (body_of defs.now (Pred pred)).next < 2 ^ 32 }
    ensures same { (p : PredDef) → pred_at defs.now pred ≡ Some p → IfOk result (λ r. r.0 ≡ instantiated_inv p root args.now fresh) }
    ensures next { (p : PredDef) → pred_at defs.now pred ≡ Some p → IfOk result (λ r. r.1 ≡ next_after (body_of_inv p) fresh) }
    ensures truth { (p : PredDef) → pred_at defs.now pred ≡ Some p → IfOk result (λ r. (s : Stack) → TrueAt s r.0 ↔ TrueAt (stack_of_body (body_of_inv p) (s root).number (map (argument_at s) args.now)) p.inv) }
{
    match defs.pred(pred) {
        Some(found) => inv_at(alloc, found, root, args, fresh),
        None => Ok((Pure::And(Items::new(alloc)), fresh)),
    }
}

fn nothing(alloc: Global, fresh: u32) -> Result<(Formula, u32), NoMemory>
    ensures { IfOk result (λ r. r.1 ≡ fresh) }
{
    Ok((
        Formula {
            cases: Items::new(alloc),
        },
        fresh,
    ))
}

fn body_at(
    alloc: Global,
    p: &PredDef,
    root: Var,
    args: &[Var],
    fresh: u32,
) -> Result<(Formula, u32), NoMemory>
    requires ready { IsReady (body_of_pred p.now) root args.now }
    requires room { fresh + p.now.next < 2 ^ 32 }
    ensures same { IfOk result (λ r. r.0 ≡ instantiated (body_of_pred p.now) root args.now fresh) }
    ensures next { IfOk result (λ r. r.1 ≡ next_after (body_of_pred p.now) fresh) }
{
    let mut seen = unseen(alloc, p.next as usize)?;
    mark_cases(&mut seen, p.body.cases.as_slice());
    let (names, next) = new_names(alloc, p.params.as_slice(), root, args, fresh, &seen)?;
    Ok((p.body.put_names(alloc, &names)?, next))
}

fn right_at(
    alloc: Global,
    l: &Lemma,
    root: Var,
    args: &[Var],
    fresh: u32,
) -> Result<(Formula, u32), NoMemory>
    requires ready { IsReady (body_of_lemma l.now) root args.now }
    requires room { fresh + l.now.next < 2 ^ 32 }
    ensures same { IfOk result (λ r. r.0 ≡ instantiated (body_of_lemma l.now) root args.now fresh) }
    ensures next { IfOk result (λ r. r.1 ≡ next_after (body_of_lemma l.now) fresh) }
{
    let mut seen = unseen(alloc, l.next as usize)?;
    mark_disjunct(&mut seen, &l.right);
    let (names, next) = new_names(alloc, l.params.as_slice(), root, args, fresh, &seen)?;
    let mut cases = Items::new(alloc);
    cases.push(l.right.put_names(alloc, &names)?)?;
    Ok((Formula { cases }, next))
}

fn inv_at(
    alloc: Global,
    p: &PredDef,
    root: Var,
    args: &[Var],
    fresh: u32,
) -> Result<(Pure, u32), NoMemory>
    requires ready { IsReady (body_of_inv p.now) root args.now }
    requires room { fresh + p.now.next < 2 ^ 32 }
    ensures same { IfOk result (λ r. r.0 ≡ instantiated_inv p.now root args.now fresh) }
    ensures next { IfOk result (λ r. r.1 ≡ next_after (body_of_inv p.now) fresh) }
{
    let mut seen = unseen(alloc, p.next as usize)?;
    mark_pure(&mut seen, &p.inv);
    let (names, next) = new_names(alloc, p.params.as_slice(), root, args, fresh, &seen)?;
    Ok((p.inv.put_names(alloc, &names)?, next))
}

// The names to put in the place of what occurs, and the number after the last one taken.
fn new_names(
    alloc: Global,
    params: &[Var],
    root: Var,
    args: &[Var],
    fresh: u32,
    seen: &[Seen],
) -> Result<(Vec<(Var, Var)>, u32), NoMemory>
    requires { fresh + length seen.now < 2 ^ 32 }
    ensures names { IfOk result (λ r. r.0.items ≡ new_names params.now root args.now fresh seen.now) }
    ensures next { IfOk result (λ r. r.1 ≡ next_number params.now fresh 0 seen.now) }
{
    let mut names = Vec::new(alloc);
    names.push((SELF, root))?;
    push_pairs(&mut names, params, args)?;
    let next = push_others(&mut names, params, fresh, seen)?;
    Ok((names, next))
}

fn push_pairs(names: &mut Vec<(Var, Var)>, params: &[Var], args: &[Var]) -> Result<(), NoMemory>
    ensures { OnOk result (names.new.items ≡ names.old.items ++ paired params.now args.now) }
{
    match params {
        [] => Ok(()),
        [param, params @ ..] => match args {
            [] => Ok(()),
            [arg, args @ ..] => {
                names.push((*param, *arg))?;
                push_pairs(names, params, args)
            }
        },
    }
}

// Gives the numbers from `fresh` on to the numbers of which another variable occurs.
fn push_others(
    names: &mut Vec<(Var, Var)>,
    params: &[Var],
    fresh: u32,
    seen: &[Seen],
) -> Result<u32, NoMemory>
    requires { fresh + length seen.now < 2 ^ 32 }
    ensures names { OnOk result (names.new.items ≡ names.old.items ++ other_pairs params.now fresh 0 seen.now) }
    ensures next { IfOk result (λ n. n ≡ next_number params.now fresh 0 seen.now) }
{
    let mut next = fresh;
    let mut number = 0;
    for entry in seen {
        if is_other(params, number, *entry) {
            push_both(names, number, next)?;
            next += 1;
        }
        number += 1;
    }
    Ok(next)
}

// The variables of both kinds of a number get another number.
fn push_both(names: &mut Vec<(Var, Var)>, number: u32, next: u32) -> Result<(), NoMemory>
    ensures { OnOk result (names.new.items ≡ names.old.items ++ (record { number = number; bag = false }, record { number = next; bag = false }) ∷ (record { number = number; bag = true }, record { number = next; bag = true }) ∷ []) }
{
    names.push((
        Var { number, bag: false },
        Var {
            number: next,
            bag: false,
        },
    ))?;
    names.push((
        Var { number, bag: true },
        Var {
            number: next,
            bag: true,
        },
    ))?;
    Ok(())
}

// Whether a variable of the number occurs that is neither `self` nor a parameter.
fn is_other(params: &[Var], number: u32, seen: Seen) -> bool
    ensures { result ≡ is_other_seen params.now number seen }
{
    seen.number && !is_named(params, Var { number, bag: false })
        || seen.bag && !is_named(params, Var { number, bag: true })
}

fn is_named(params: &[Var], v: Var) -> bool
    ensures { result ≡ is_in v (self_var ∷ params.now) }
{
    v == SELF || is_listed(params, v)
}
