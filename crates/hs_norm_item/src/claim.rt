//! The numbering of one claim after another.

ghost use Rattle.std.specs.Prelude.{◌≡◌};
ghost use Rattle.hs_numbering.specs.Numbering.{Builds};
ghost use Rattle.hs_norm_formula.specs.Formula as formulas;
ghost use Rattle.hs_norm_item.specs.Claim as spec;

use hs_numbering::{Limit, Names, Numbering, Problem, Reading};
use hs_pure::{NoMemory, Var};
use hs_text::Text;
use hs_tree::Ident;
use sqlite_items::Items;
use std::alloc::Global;

/// Begins a claim of its own, with the faults of those before it.
pub fn begin(alloc: Global, n: &mut Numbering, reading: Reading)
    ensures { (tt, n.new) ≡ spec.begin reading n.old }
{
    let faults = std::mem::replace(&mut n.faults, Items::new(alloc));
    *n = Numbering::start(alloc, reading, faults);
}

/// Gives `self` the first number.
pub fn fix_self(alloc: Global, n: &mut Numbering, at: u32) -> Result<Var, NoMemory>
    ensures { Builds (spec.fix_self at n.old) result n.new }
{
    let text = Text::from_str(alloc, "self")?;
    n.fix(alloc, &Ident { text, at })
}

/// Gives `res` a number, which is not known yet.
pub fn reserve(alloc: Global, n: &mut Numbering, at: u32) -> Result<Var, NoMemory>
    ensures { Builds (spec.reserve at n.old) result n.new }
{
    let text = Text::from_str(alloc, "res")?;
    n.give(Some(text), at, false)
}

/// Makes `res` known, where there is a result.
pub fn learn_res(
    alloc: Global,
    n: &mut Numbering,
    has_result: bool,
    at: u32,
    v: Var,
) -> Result<(), NoMemory>
    ensures { Builds (spec.learn_res has_result at v n.old) result n.new }
{
    if !has_result {
        return Ok(());
    }
    let text = Text::from_str(alloc, "res")?;
    n.learn(alloc, &Ident { text, at }, v)
}

/// The variables of the names that are free, by rising number.
pub fn known_vars(alloc: Global, n: &Numbering) -> Result<Items<Var>, NoMemory>
    ensures { Builds (spec.known_vars n.now) result n.now }
{
    let mut vars = Items::new(alloc);
    for named in n.known.as_slice() {
        vars.push(named.var)?;
    }
    Ok(vars)
}

/// Takes the source names of the claim.
pub fn take_names(alloc: Global, n: &mut Numbering) -> Names
    ensures { (result.list, n.new) ≡ spec.take_names n.old }
{
    Names {
        list: std::mem::replace(&mut n.names, Items::new(alloc)),
    }
}

/// Notes, as a fault at its place, a thing that is one too many: there are `count` before it, as many as a source
/// may have.
pub fn limit(
    n: &mut Numbering,
    most: usize,
    what: Limit,
    at: u32,
    count: usize,
) -> Result<(), NoMemory>
    ensures { Builds (formulas.limit most what at count n.old) result n.new }
{
    if count == most && n.reading != Reading::Numbered {
        n.blame(at, Problem::TooMany(what))?;
    }
    Ok(())
}
