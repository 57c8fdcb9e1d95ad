//! Answers and their texts.

ghost use Rattle.std.specs.Prelude.{◌≡◌, ◌≤◌, ◌<◌, ◌^◌, false, IfOk};
ghost use Rattle.hs_pure.specs.Eval.{stack_of, has_quantifiers};
ghost use Rattle.hs_pure.specs.Occurs.{top_of};
ghost use Rattle.hs_pure.specs.Sums.{IsOrdered};
ghost use Rattle.hs_pure.specs.Truth.{TrueAt};
ghost use Rattle.hs_bag.specs.Promise.{IsReduction};

use crate::solving::{fresh, reduction, solved};
use hs_bag::{BagError, Count, RebuildError, Reduced, Stop, plain, rebuild};
use hs_cooper::Stop as Halt;
use hs_pure::{Bag, Pure, Valuation, Var, Wide};
use hs_tests_formulas::{NoRow, is_decidable, is_flat};
use sqlite_items::Boxed;
use std::alloc::Global;

fn push_truth(out: &mut String, truth: Result<bool, Wide>) -> Result<(), NoRow> {
    match truth {
        Ok(true) => write!(out, "true")?,
        Ok(false) => write!(out, "wrong")?,
        Err(Wide) => write!(out, "wide")?,
    }
    Ok(())
}

// The truth of the formula with the bags that the values say.
fn push_rebuilt(
    alloc: Global,
    out: &mut String,
    f: &Pure,
    fresh: u32,
    r: &Reduced,
    v: &Valuation,
) -> Result<(), NoRow>
    requires flat { has_quantifiers f.now ≡ false }
    requires reduction { IsReduction f.now fresh r.now }
    requires solution { TrueAt (stack_of v.now) r.now.pure }
{
    match rebuild(alloc, f, fresh, r, v) {
        Ok(w) => push_truth(out, f.eval(&w)),
        Err(RebuildError::Wide) => push_truth(out, Err(Wide)),
        Err(RebuildError::Memory) => Err(NoRow),
    }
}

fn push_halt(out: &mut String, halt: Halt) -> Result<(), NoRow> {
    match halt {
        Halt::Atoms => write!(out, "atoms")?,
        Halt::Wide => write!(out, "wide")?,
        Halt::Memory => return Err(NoRow),
    }
    Ok(())
}

fn push_none(out: &mut String) -> Result<(), NoRow> {
    write!(out, "none")?;
    Ok(())
}

fn push_solved(
    alloc: Global,
    out: &mut String,
    f: &Pure,
    fresh: u32,
    r: &Reduced,
) -> Result<(), NoRow>
    requires flat { has_quantifiers f.now ≡ false }
    requires reduction { IsReduction f.now fresh r.now }
{
    match solved(alloc, &r.pure) {
        Ok(Some(v)) => push_rebuilt(alloc, out, f, fresh, r, &v),
        Ok(None) => push_none(out),
        Err(halt) => push_halt(out, halt),
    }
}

fn push_refused(out: &mut String, error: BagError) -> Result<(), NoRow> {
    match error {
        BagError::UnderQuantifier => write!(out, "under")?,
        BagError::Numbers => write!(out, "numbers")?,
        BagError::Memory => return Err(NoRow),
    }
    Ok(())
}

pub fn push_reduced(alloc: Global, out: &mut String, f: &Pure) -> Result<(), NoRow> {
    if !is_decidable(f) || !is_flat(f) {
        return Err(NoRow);
    }
    let fresh = fresh(f)?;
    match reduction(alloc, f, fresh) {
        Ok(r) => push_solved(alloc, out, f, fresh, r.get()),
        Err(error) => push_refused(out, error),
    }
}

fn push_count(out: &mut String, count: &Count) -> Result<(), NoRow> {
    let of = count.of.number;
    let number = count.count.number;
    write!(out, "V{of} v{number}, ")?;
    Ok(())
}

fn push_listed(out: &mut String, r: &Reduced) -> Result<(), NoRow> {
    for count in r.counts.as_slice() {
        push_count(out, count)?;
    }
    let next = r.next;
    write!(out, "then v{next}")?;
    Ok(())
}

pub fn push_counts(alloc: Global, out: &mut String, f: &Pure) -> Result<(), NoRow> {
    if !is_decidable(f) {
        return Err(NoRow);
    }
    match reduction(alloc, f, fresh(f)?) {
        Ok(r) => push_listed(out, r.get()),
        Err(error) => push_refused(out, error),
    }
}

fn push_stop(out: &mut String, stop: Stop) -> Result<(), NoRow> {
    match stop {
        Stop::Atoms => write!(out, "atoms")?,
        Stop::Wide => write!(out, "wide")?,
        Stop::Memory => return Err(NoRow),
    }
    Ok(())
}

// Whether there is a plain reduction.
fn made(alloc: Global, f: &Pure, fresh: u32, atoms: u64) -> Result<Boxed<Reduced>, Stop>
    requires low { fresh ≤ 2 ^ 31 }
    requires small { atoms ≤ 2 ^ 30 }
{
    match Boxed::new(alloc, plain(alloc, f, fresh, atoms)?) {
        Ok(r) => Ok(r),
        Err(_) => Err(Stop::Memory),
    }
}

pub fn push_plain(alloc: Global, out: &mut String, f: &Pure, atoms: u64) -> Result<(), NoRow>
    requires { atoms ≤ 2 ^ 30 }
{
    match made(alloc, f, fresh(f)?, atoms) {
        Ok(_) => write!(out, "fits")?,
        Err(stop) => push_stop(out, stop)?,
    }
    Ok(())
}

const U: Var = Var {
    number: 5,
    bag: false,
};

const S: Var = Var {
    number: 4,
    bag: true,
};

// What binds v5 over the formula.
#[tactic(auto, using(crate::proofs::Bound::ordered_exists, crate::proofs::Bound::ordered_forall, crate::proofs::Bound::ordered_all))]
fn bound(alloc: Global, word: &str, body: Boxed<Pure>) -> Result<Boxed<Pure>, NoRow>
    requires { IsOrdered body }
    ensures { IfOk result IsOrdered }
{
    match word {
        "exists" => Ok(Boxed::new(alloc, Pure::Exists(U, body))?),
        "forall" => Ok(Boxed::new(alloc, Pure::Forall(U, body))?),
        "all" => Ok(Boxed::new(alloc, Pure::AllOf(U, Bag::Name(S), body))?),
        _ => Err(NoRow),
    }
}

pub fn push_under(alloc: Global, out: &mut String, word: &str, f: &Pure) -> Result<(), NoRow> {
    if !is_decidable(f) {
        return Err(NoRow);
    }
    let body = Boxed::new(alloc, f.copy(alloc)?)?;
    let whole = bound(alloc, word, body)?;
    match reduction(alloc, whole.get(), fresh(whole.get())?) {
        Ok(r) => push_listed(out, r.get()),
        Err(error) => push_refused(out, error),
    }
}
