//! The cases of the third stage.

ghost use Rattle.std.specs.Prelude.{◌≡◌, ℕ, ◌≤◌, ◌<◌, ◌^◌, map, OnOk, IfOk, IsErrOf};
ghost use Rattle.std.specs.List.{fold};
ghost use Rattle.hs_elimination.specs.Linear.{place};
ghost use Rattle.hs_elimination.specs.Normal.{evaluate};
ghost use Rattle.hs_elimination.specs.Cases.{cases_at, cases_to};
ghost use Rattle.hs_cooper_forms.specs.Reading.{form_of, join, joined, IsCanonical};
ghost use Rattle.hs_cooper_forms.specs.Gathering.{gathered, HasProper};
ghost use Rattle.hs_cooper.specs.Casing.{IsRefusedAt, IsRefusedTo, HasWideAt, HasWideGiven};
ghost use Rattle.hs_cooper_forms.specs.declared.refusal.Refusal.TheVariants.{Wide};
ghost use Rattle.hs_cooper_forms.specs.declared.nnf.Connective.TheVariants.{Or};

use hs_cooper_forms::{Change, Connective, Gathered, Nnf, Refusal, apply, shifted};
use hs_pure::{Lin, Var};
use std::alloc::Global;

// Adds the minus-infinity form at `j`, and the formula at the sum of each bound and `j`.
fn add_cases(
    alloc: Global,
    members: &mut Gathered,
    f: &Nnf,
    x: Var,
    bounds: &[Lin],
    j: u64,
) -> Result<(), Refusal>
    requires connective { members.old.connective ≡ Or }
    requires proper { HasProper members.old }
    ensures same { OnOk result (members.new.connective ≡ Or) }
    ensures form { OnOk result (gathered members.new
        ≡ fold (join Or) (gathered members.old) (map evaluate (cases_at (place x) (form_of f.now) bounds.now j))) }
    ensures proper { OnOk result (HasProper members.new) }
    ensures wide { IsErrOf result Wide → IsRefusedAt x (form_of f.now) bounds.now j }
    ensures narrow { OnOk result (HasWideAt x (form_of f.now) bounds.now j → HasWideGiven (form_of f.now) bounds.now) }
{
    let low = apply(alloc, &Change::Low(x, j), f)?;
    members.add(low)?;
    for b in bounds {
        let sum = shifted(alloc, b, j)?;
        let near = apply(alloc, &Change::Substitute(x, sum), f)?;
        members.add(near)?;
    }
    Ok(())
}

// Each case for the numbers from 1 to `period`.
pub(crate) fn all_cases(
    alloc: Global,
    f: &Nnf,
    x: Var,
    bounds: &[Lin],
    period: u64,
) -> Result<Nnf, Refusal>
    requires { period < 2 ^ 31 }
    ensures form { IfOk result (λ r. form_of r ≡ joined Or (map evaluate (cases_to (place x) (form_of f.now) bounds.now period))) }
    ensures canonical { IfOk result IsCanonical }
    ensures wide { IsErrOf result Wide → IsRefusedTo x (form_of f.now) bounds.now period }
    ensures narrow { IfOk result (λ _. (j : ℕ) → 1 ≤ j → j ≤ period → HasWideAt x (form_of f.now) bounds.now j → HasWideGiven (form_of f.now) bounds.now) }
{
    let mut members = Gathered::new(alloc, Connective::Or);
    for j in 1..period + 1 {
        add_cases(alloc, &mut members, f, x, bounds, j)?;
    }
    Ok(members.finish())
}
