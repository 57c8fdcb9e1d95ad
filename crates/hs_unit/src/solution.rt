//! Forms solved for a variable, and the solution in its place in other forms.

ghost use Rattle.std.specs.Prelude.{◌≡◌, neg_ℤ, unsigned_abs, map, true, Option, None, Some, IfOk, if◌then◌else◌};
ghost use Rattle.hs_elimination.specs.Linear.{place};
ghost use Rattle.hs_elimination.specs.Cases.{substitute_lin};
ghost use Rattle.hs_unit.specs.Sides.{forms};
ghost use Rattle.hs_unit.specs.Reduction.{is_small, all_small, is_unit, unit_term, solution};

use crate::sides::Kind;
use crate::small::is_small;
use hs_cooper_forms::{Refusal, rest};
use hs_pure::{Lin, NoMemory, Var};
use hs_substitute::{substitute_lin, times};
use sqlite_items::Items;
use std::alloc::Global;

fn is_unit(c: i128) -> bool
    ensures { result ≡ is_unit c }
{
    c == 1 || c == -1
}

// The first term with the coefficient 1 or -1.
pub(crate) fn unit_term(ts: &[(Var, i128)]) -> Option<(Var, i128)>
    ensures { result ≡ unit_term ts.now }
{
    for t in ts {
        if is_unit(t.1) {
            return Some(*t);
        }
    }
    None
}

// The other sign of 1 or -1.
fn opposite(c: i128) -> i128
    requires { is_unit c ≡ true }
    ensures opposite { result ≡ neg_ℤ c }
    ensures unit { unsigned_abs result ≡ 1 }
{
    if c == 1 { -1 } else { 1 }
}

// What f = 0 makes the variable of a term with the coefficient 1 or -1.
pub(crate) fn solution(alloc: Global, f: &Lin, t: (Var, i128)) -> Result<Option<Lin>, NoMemory>
    requires unit { is_unit t.1 ≡ true }
    requires small { is_small f.now ≡ true }
    ensures { IfOk result (λ o. o ≡ Some (solution f.now t)) }
{
    let others = match rest(alloc, f, t.0) {
        Ok(others) => others,
        Err(_) => return Err(NoMemory),
    };
    match times(alloc, opposite(t.1), &others) {
        Ok(u) => Ok(Some(u)),
        Err(Refusal::Wide) => Ok(None),
        Err(Refusal::Memory) => Err(NoMemory),
    }
}

// `u` in the place of `x` of a form, if the result is small.
fn put_one(alloc: Global, x: Var, u: &Lin, a: &Lin) -> Result<Option<Lin>, NoMemory>
    ensures { IfOk result (λ o. o ≡ (if is_small (substitute_lin (place x) u.now a.now) then Some (substitute_lin (place x) u.now a.now) else None)) }
{
    match substitute_lin(alloc, a, x, u) {
        Ok(r) => Ok(if is_small(&r) { Some(r) } else { None }),
        Err(Refusal::Wide) => Ok(None),
        Err(Refusal::Memory) => Err(NoMemory),
    }
}

// The same for each form, if all results are small.
pub(crate) fn put(
    alloc: Global,
    x: Var,
    u: &Lin,
    forms: &[Lin],
) -> Result<Option<Items<Lin>>, NoMemory>
    ensures { IfOk result (λ o. o ≡ (if all_small (map (substitute_lin (place x) u.now) forms.now) then Some (map (substitute_lin (place x) u.now) forms.now) else None)) }
{
    let mut all = Items::new(alloc);
    for a in forms {
        let Some(r) = put_one(alloc, x, u, a)? else {
            return Ok(None);
        };
        all.push(r)?;
    }
    Ok(Some(all))
}

// The same for the form of each comparison.
pub(crate) fn put_right(
    alloc: Global,
    x: Var,
    u: &Lin,
    right: &[(Kind, Lin)],
) -> Result<Option<Items<(Kind, Lin)>>, NoMemory>
    ensures { IfOk result (λ o. o ≡ (if all_small (forms (map (λ c. (c.0, substitute_lin (place x) u.now c.1)) right.now)) then Some (map (λ c. (c.0, substitute_lin (place x) u.now c.1)) right.now) else None)) }
{
    let mut all = Items::new(alloc);
    for c in right {
        let Some(r) = put_one(alloc, x, u, &c.1)? else {
            return Ok(None);
        };
        all.push((c.0, r))?;
    }
    Ok(Some(all))
}
