//! How many new numbers an approximation takes, told before it is built.

ghost use Rattle.std.specs.Prelude.{◌≡◌, ◌+◌, ◌≤◌, ◌^◌, Some, IfOk};
ghost use Rattle.std.specs.Option.{option_copied};
ghost use Rattle.hs_heap.specs.declared.formula.Of.TheVariants.{Pred};
ghost use Rattle.hs_heap.specs.Meaning.{pred_at};
ghost use Rattle.hs_heap.specs.Sound.{IsSound};
ghost use Rattle.hs_heap.specs.Instance.{body_of, body_of_pred};
ghost use Rattle.hs_xpure.specs.Counts.{capped, listed, of_taken, atoms_taken as atoms_taken_of, cases_taken as cases_taken_of, body_taken as body_taken_of, inv_taken as inv_taken_of, inv_and_body_taken as inv_and_body_taken_of, pred_taken, taken_above as taken_above_of, table as table_of};

use hs_heap::{Atom, Defs, Disjunct, Of, PredDef, instantiate, instantiate_inv};
use hs_pure::{NoMemory, Var};
use sqlite_items::Items;
use std::alloc::Global;
use std::cmp::min;

const SELF: Var = Var {
    number: 1,
    bag: false,
};

// Stands for all counts above 2^30.
const MANY: u32 = 1_073_741_825;

fn sum(a: u32, b: u32) -> u32
    requires left { a ≤ 2 ^ 30 + 1 }
    requires right { b ≤ 2 ^ 30 + 1 }
    ensures { result ≡ capped (a + b) }
{
    min(a + b, MANY)
}

fn of_count(counts: &[u32], of: Of) -> u32
    ensures { result ≡ capped (of_taken (listed counts.now) of) }
{
    match of {
        Of::Node(_) => 1,
        Of::Pred(0) => 0,
        Of::Pred(pred) => match counts.get(pred as usize - 1) {
            Some(count) => min(*count, MANY),
            None => 0,
        },
    }
}

fn atoms_taken(counts: &[u32], atoms: &[Atom]) -> u32
    ensures { result ≡ capped (atoms_taken_of (listed counts.now) atoms.now) }
{
    let mut total = 0;
    for atom in atoms {
        total = sum(total, of_count(counts, atom.of));
    }
    total
}

fn cases_taken(counts: &[u32], cases: &[Disjunct]) -> u32
    ensures { result ≡ capped (cases_taken_of (listed counts.now) cases.now) }
{
    let mut total = 0;
    for case in cases {
        total = sum(total, atoms_taken(counts, case.atoms.as_slice()));
    }
    total
}

// What the invariant of a predicate takes.
fn inv_taken(alloc: Global, defs: &Defs, pred: u32, p: &PredDef) -> Result<u32, NoMemory>
    requires sound { IsSound defs.now }
    requires there { pred_at defs.now pred ≡ Some p.now }
    ensures { IfOk result (λ n. n ≡ capped (inv_taken_of (Some p.now))) }
{
    let next = instantiate_inv(alloc, defs, pred, SELF, p.params.as_slice(), p.next)?.1;
    Ok(min(next - p.next, MANY))
}

// What the body of a predicate takes, where the list has what predicates take.
fn body_taken(
    alloc: Global,
    defs: &Defs,
    pred: u32,
    p: &PredDef,
    counts: &[u32],
) -> Result<u32, NoMemory>
    requires sound { IsSound defs.now }
    requires there { pred_at defs.now pred ≡ Some p.now }
    ensures { IfOk result (λ n. n ≡ capped (body_taken_of (listed counts.now) (body_of_pred p.now))) }
{
    let next = instantiate(alloc, defs, pred, SELF, p.params.as_slice(), p.next)?.1;
    let own = min(next - p.next, MANY);
    Ok(sum(own, cases_taken(counts, p.body.cases.as_slice())))
}

fn inv_and_body_taken(
    alloc: Global,
    defs: &Defs,
    pred: u32,
    p: &PredDef,
    counts: &[u32],
) -> Result<u32, NoMemory>
    requires sound { IsSound defs.now }
    requires there { pred_at defs.now pred ≡ Some p.now }
    ensures { IfOk result (λ n. n ≡ capped (inv_and_body_taken_of (listed counts.now) (Some p.now))) }
{
    let inv = inv_taken(alloc, defs, pred, p)?;
    let body = body_taken(alloc, defs, pred, p, counts)?;
    Ok(sum(inv, body))
}

// What the predicates take at level 0.
fn taken_at_0(alloc: Global, defs: &Defs) -> Result<Items<u32>, NoMemory>
    requires { IsSound defs.now }
    ensures { IfOk result (λ counts. counts ≡ table_of defs.now 0) }
{
    let mut counts = Items::new(alloc);
    for (i, p) in defs.preds.as_slice().iter().enumerate() {
        let Ok(pred) = u32::try_from(i + 1) else {
            return Err(NoMemory);
        };
        counts.push(inv_taken(alloc, defs, pred, p)?)?;
    }
    Ok(counts)
}

// What they take at a level, from what they take at the level below.
fn taken_above(alloc: Global, defs: &Defs, below: &[u32]) -> Result<Items<u32>, NoMemory>
    requires { IsSound defs.now }
    ensures { IfOk result (λ counts. counts ≡ taken_above_of defs.now below.now) }
{
    let mut counts = Items::new(alloc);
    for (i, p) in defs.preds.as_slice().iter().enumerate() {
        let Ok(pred) = u32::try_from(i + 1) else {
            return Err(NoMemory);
        };
        counts.push(inv_and_body_taken(alloc, defs, pred, p, below)?)?;
    }
    Ok(counts)
}

fn table(alloc: Global, defs: &Defs, level: u32) -> Result<Items<u32>, NoMemory>
    requires { IsSound defs.now }
    ensures { IfOk result (λ counts. counts ≡ table_of defs.now level) }
{
    let mut counts = taken_at_0(alloc, defs)?;
    for below in 0..level {
        counts = taken_above(alloc, defs, counts.as_slice())?;
    }
    Ok(counts)
}

/// What atoms take at a level, where it is at most 2^30, and else 2^30 + 1.
pub fn numbers_of_atoms(
    alloc: Global,
    defs: &Defs,
    level: u32,
    atoms: &[Atom],
) -> Result<u32, NoMemory>
    requires { IsSound defs.now }
    ensures { IfOk result (λ n. n ≡ capped (atoms_taken_of (pred_taken defs.now level) atoms.now)) }
{
    let counts = table(alloc, defs, level)?;
    Ok(atoms_taken(counts.as_slice(), atoms))
}

/// The same of a predicate's body.
pub fn numbers_of_body(alloc: Global, defs: &Defs, level: u32, pred: u32) -> Result<u32, NoMemory>
    requires { IsSound defs.now }
    ensures { IfOk result (λ n. n ≡ capped (body_taken_of (pred_taken defs.now level) (body_of defs.now (Pred pred)))) }
{
    let counts = table(alloc, defs, level)?;
    match pred_of(defs, pred) {
        Some(p) => body_taken(alloc, defs, pred, p, counts.as_slice()),
        None => Ok(0),
    }
}

// The predicate of a number from 1.
fn pred_of(defs: &Defs, pred: u32) -> Option<&PredDef>
    ensures { option_copied result ≡ pred_at defs.now pred }
{
    if pred == 0 {
        return None;
    }
    defs.preds.as_slice().get(pred as usize - 1)
}
