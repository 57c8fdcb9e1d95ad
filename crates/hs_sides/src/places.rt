//! Places in lists, which count from 1, and simple sides.
ghost use Rattle.std.specs.Prelude.{◌≡◌, MatchOption};
ghost use Rattle.hs_goal.specs.Classes.{the_case, IsSimple};
ghost use Rattle.hs_rules.specs.Conditions.{BindsOnly};
ghost use Rattle.hs_rules.specs.Parts.{IsPlace, atom_at, conjunct_at, case_at};

use hs_heap::{Atom, Disjunct, Formula};
use hs_pure::Pure;

/// The disjunct of a simple side.
pub fn simple_case(f: &Formula) -> Option<&Disjunct>
    ensures { MatchOption result (¬ (IsSimple f.now)) (λ d. IsSimple f.now × (d.now ≡ the_case f.now)) }
{
    match f.cases.as_slice() {
        [d] if d.bound.is_empty() => Some(d),
        _ => None,
    }
}

/// The one disjunct, where it binds variables.
pub fn binding_case(f: &Formula) -> Option<&Disjunct>
    ensures { MatchOption result (¬ (BindsOnly f.now)) (λ d. BindsOnly f.now × (d.now ≡ the_case f.now)) }
{
    match f.cases.as_slice() {
        [d] if !d.bound.is_empty() => Some(d),
        _ => None,
    }
}

pub fn atom_at(atoms: &[Atom], n: u32) -> Option<&Atom>
    ensures { MatchOption result (¬ (IsPlace n atoms.now)) (λ a. IsPlace n atoms.now × (a.now ≡ atom_at n atoms.now)) }
{
    if n == 0 {
        return None;
    }
    atoms.get(n as usize - 1)
}

pub fn conjunct_at(conjuncts: &[Pure], n: u32) -> Option<&Pure>
    ensures { MatchOption result (¬ (IsPlace n conjuncts.now)) (λ p. IsPlace n conjuncts.now × (p.now ≡ conjunct_at n conjuncts.now)) }
{
    if n == 0 {
        return None;
    }
    conjuncts.get(n as usize - 1)
}

pub fn case_at(cases: &[Disjunct], n: u32) -> Option<&Disjunct>
    ensures { MatchOption result (¬ (IsPlace n cases.now)) (λ d. IsPlace n cases.now × (d.now ≡ case_at n cases.now)) }
{
    if n == 0 {
        return None;
    }
    cases.get(n as usize - 1)
}
