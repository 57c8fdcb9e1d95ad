//! The distinct lower bounds of a variable.

ghost use Rattle.std.specs.Prelude.{◌≡◌, ◌<◌, ◌≤◌, [], ◌∷◌, length, OnOk, IsErrOf};
ghost use Rattle.hs_elimination.specs.Linear.{place};
ghost use Rattle.hs_elimination.specs.Cases.{has_lin, join_distinct};
ghost use Rattle.hs_cooper_forms.specs.Reading.{form_of, literal_form};
ghost use Rattle.hs_cooper.specs.Bounding.{denied_bounds, join_all};
ghost use Rattle.hs_cooper.specs.declared.stop.Stop.TheVariants.{Atoms, Wide};

use crate::Stop;
use hs_cooper_forms::{Literal, Nnf, Relation, coefficient, rest, same_lin};
use hs_pure::{Lin, Var};
use sqlite_items::Items;
use std::alloc::Global;

fn has_lin(a: &Lin, sums: &[Lin]) -> bool
    ensures { result ≡ has_lin a.now sums.now }
{
    for b in sums {
        if same_lin(a, b) {
            return true;
        }
    }
    false
}

// Adds a sum that is new. There may be no more than `limit`.
fn join(done: &mut Items<Lin>, a: Lin, limit: u64) -> Result<(), Stop>
    ensures list { OnOk result (done.new ≡ join_distinct done.old (a ∷ [])) }
    ensures over { IsErrOf result Atoms → limit < length (join_distinct done.old (a ∷ [])) }
    ensures fits { ¬ (IsErrOf result Wide) }
{
    if has_lin(&a, done.as_slice()) {
        return Ok(());
    }
    if done.len() as u64 >= limit {
        return Err(Stop::Atoms);
    }
    done.push(a)?;
    Ok(())
}

fn join_literal(
    alloc: Global,
    done: &mut Items<Lin>,
    l: &Literal,
    x: Var,
    limit: u64,
) -> Result<(), Stop>
    ensures list { OnOk result (done.new ≡ join_distinct done.old (denied_bounds (place x) (literal_form l.now))) }
    ensures over { IsErrOf result Atoms → limit < length (join_distinct done.old (denied_bounds (place x) (literal_form l.now))) }
    ensures fits { ¬ (IsErrOf result Wide) }
{
    if l.relation == Relation::Positive && coefficient(&l.sum, x) > 0 {
        let r = rest(alloc, &l.sum, x)?;
        join(done, r, limit)?;
    }
    Ok(())
}

// Adds the lower bounds of the formula that are new, with the other sign. There may be no more than `limit`.
#[cycle(bounding)]
pub(crate) fn join_bounds(
    alloc: Global,
    done: &mut Items<Lin>,
    f: &Nnf,
    x: Var,
    limit: u64,
) -> Result<(), Stop>
    ensures list { OnOk result (done.new ≡ join_distinct done.old (denied_bounds (place x) (form_of f.now))) }
    ensures over { IsErrOf result Atoms → limit < length (join_distinct done.old (denied_bounds (place x) (form_of f.now))) }
    ensures fits { ¬ (IsErrOf result Wide) }
{
    match f {
        Nnf::Truth(_) => Ok(()),
        Nnf::Literal(l) => join_literal(alloc, done, l, x, limit),
        Nnf::Joined(_, fs) => join_all_bounds(alloc, done, fs.as_slice(), x, limit),
    }
}

#[cycle(bounding)]
fn join_all_bounds(
    alloc: Global,
    done: &mut Items<Lin>,
    fs: &[Nnf],
    x: Var,
    limit: u64,
) -> Result<(), Stop>
    ensures list { OnOk result (done.new ≡ join_all (place x) done.old fs.now) }
    ensures over { IsErrOf result Atoms → limit < length (join_all (place x) done.old fs.now) }
    ensures fits { ¬ (IsErrOf result Wide) }
{
    for f in fs {
        join_bounds(alloc, done, f, x, limit)?;
    }
    Ok(())
}
