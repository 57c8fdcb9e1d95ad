//! The third stage.

ghost use Rattle.std.specs.Prelude.{◌≡◌, ◌+◌, ◌*◌, ◌≤◌, ◌<◌, ◌^◌, ◌⊎◌, ◌↔◌, IfOk, IsErrOf, IsTrue};
ghost use Rattle.std.specs.List.{Contains};
ghost use Rattle.hs_pure.specs.declared.lin.Lin.{Lin};
ghost use Rattle.hs_elimination.specs.Linear.{place, IsWideLin};
ghost use Rattle.hs_elimination.specs.Form.{atoms, IsWide};
ghost use Rattle.hs_elimination.specs.Normal.{evaluate};
ghost use Rattle.hs_elimination.specs.Cases.{distinct_bounds, period, stage3};
ghost use Rattle.hs_elimination.specs.Elimination.{HasWideSum};
ghost use Rattle.hs_cooper_forms.specs.Reading.{form_of, IsCanonical};
ghost use Rattle.hs_cooper_forms.specs.Changing.{HasUneven};
ghost use Rattle.hs_cooper.specs.Surveying.{HasPositive};
ghost use Rattle.hs_cooper.specs.declared.stop.Stop.TheVariants.{Atoms, Wide};

use crate::Stop;
use crate::bounds::join_bounds;
use crate::cases::all_cases;
use crate::period::period;
use crate::survey::{count_atoms, count_low};
use hs_cooper_forms::{Nnf, negate_all};
use hs_pure::{Lin, Var};
use sqlite_items::Items;
use std::alloc::Global;

// Whether `low` atoms, and `atoms` for each bound, are more than `budget` over a period.
fn exceeds(period: u64, low: u64, atoms: u64, bounds: u64, budget: u64) -> bool
    requires some { 0 < period }
    requires small { budget < 2 ^ 31 }
    ensures { IsTrue result ↔ (budget < period * (low + bounds * atoms)) }
{
    let Some(near) = bounds.checked_mul(atoms) else {
        return true;
    };
    let Some(all) = low.checked_add(near) else {
        return true;
    };
    match period.checked_mul(all) {
        Some(total) => budget < total,
        None => true,
    }
}

/// What the cases of the third stage are of: the distinct lower bounds, and the numbers from 1 to the period.
#[derive(Debug, Drop)]
pub(crate) struct Cases {
    pub bounds: Items<Lin>,
    pub period: u64,
}

// The bounds and the period of the third stage for `x`, if it has no more atoms than `budget`.
pub(crate) fn count_cases(alloc: Global, f: &Nnf, x: Var, budget: u64) -> Result<Cases, Stop>
    requires small { budget < 2 ^ 31 }
    requires some { 1 ≤ budget }
    requires within { atoms (form_of f.now) ≤ budget }
    requires positive { HasPositive (form_of f.now) }
    ensures bounds { IfOk result (λ r. r.bounds ≡ distinct_bounds (place x) (form_of f.now)) }
    ensures period { IfOk result (λ r. r.period ≡ period (place x) (form_of f.now) 1) }
    ensures small { IfOk result (λ r. r.period ≤ budget) }
    ensures within { IfOk result (λ _. atoms (stage3 x (form_of f.now)) ≤ budget) }
    ensures atoms { IsErrOf result Atoms → budget < atoms (stage3 x (form_of f.now)) }
    ensures wide { IsErrOf result Wide → ((atoms (stage3 x (form_of f.now)) ≤ budget) × HasWideSum (place x) (form_of f.now)) }
    ensures narrow { IfOk result (λ r. (b : Lin) → Contains r.bounds b → ¬ (IsWideLin b)) }
{
    let Some(period) = period(f, x, 1, budget) else {
        return Err(Stop::Atoms);
    };
    let atoms = count_atoms(f, budget);
    let limit = if atoms == 0 { 0 } else { budget / atoms };
    let mut denied = Items::new(alloc);
    join_bounds(alloc, &mut denied, f, x, limit)?;
    if exceeds(
        period,
        count_low(f, x, budget),
        atoms,
        denied.len() as u64,
        budget,
    ) {
        return Err(Stop::Atoms);
    }
    let bounds = negate_all(alloc, denied.as_slice())?;
    Ok(Cases { bounds, period })
}

// The third stage for `x`, evaluated.
pub(crate) fn third_stage(alloc: Global, f: &Nnf, x: Var, budget: u64) -> Result<Nnf, Stop>
    requires small { budget < 2 ^ 31 }
    requires some { 1 ≤ budget }
    requires within { atoms (form_of f.now) ≤ budget }
    requires positive { HasPositive (form_of f.now) }
    requires even { ¬ (HasUneven (place x) (form_of f.now)) }
    ensures form { IfOk result (λ r. form_of r ≡ evaluate (stage3 x (form_of f.now))) }
    ensures within { IfOk result (λ _. atoms (stage3 x (form_of f.now)) ≤ budget) }
    ensures atoms { IsErrOf result Atoms → budget < atoms (stage3 x (form_of f.now)) }
    ensures wide { IsErrOf result Wide
        → ((atoms (stage3 x (form_of f.now)) ≤ budget) × (IsWide (stage3 x (form_of f.now)) ⊎ HasWideSum (place x) (form_of f.now))) }
    ensures narrow { IfOk result (λ _. IsWide (stage3 x (form_of f.now)) ⊎ HasWideSum (place x) (form_of f.now) → IsWide (form_of f.now)) }
{
    let cases = count_cases(alloc, f, x, budget)?;
    Ok(all_cases(alloc, f, x, cases.bounds.as_slice(), cases.period)?)
}
