//! Elimination of a variable.

ghost use Rattle.std.specs.Prelude.{◌≡◌, ◌≤◌, ◌<◌, ◌^◌, ◌↔◌, ℤ, false, IfOk, IsErrOf, IsTrue};
ghost use Rattle.hs_pure.specs.Assertion.{assertion_of};
ghost use Rattle.hs_pure.specs.Stack.{Stack, with_value, number_value};
ghost use Rattle.hs_pure.specs.Truth.{TrueAt};
ghost use Rattle.hs_pure.specs.Occurs.{is_free};
ghost use Rattle.hs_pure.specs.Sums.{IsOrdered};
ghost use Rattle.hs_elimination.specs.Form.{IsWide};
ghost use Rattle.hs_elimination.specs.Linear.{place};
ghost use Rattle.hs_elimination.specs.Normal.{is_simple, evaluate};
ghost use Rattle.hs_elimination.specs.Scaling.{multiplier, stage2};
ghost use Rattle.hs_elimination.specs.Elimination.{normal_form, scaled_form, without_variable, IsWithin, StaysWithin, PassesAtoms, PassesBits};
ghost use Rattle.hs_cooper_forms.specs.Reading.{form_of, IsCanonical};
ghost use Rattle.hs_cooper_forms.specs.declared.refusal.Refusal.TheVariants as refusal;
ghost use Rattle.hs_cooper.specs.declared.stop.Stop.TheVariants.{Atoms, Wide};

use crate::Stop;
use crate::back::to_pure;
use crate::survey::{count_atoms, multiplier};
use crate::third::third_stage;
use hs_cooper_forms::{
    Change, Connective, Gathered, Literal, Nnf, Refusal, Relation, Sign, apply, count_normal,
    evaluated, normalize, single,
};
use hs_pure::{Pure, Var};
use std::alloc::Global;

/// A formula after the second stage, where x stands for its multiple by a number.
#[derive(Debug, Drop)]
pub(crate) struct Scaling {
    pub by: u128,
    pub formula: Nnf,
}

// The second stage for `x`, evaluated.
fn second_stage(alloc: Global, f: &Nnf, x: Var) -> Result<Scaling, Refusal>
    ensures by { IfOk result (λ r. r.by ≡ multiplier (place x) (form_of f.now) 1) }
    ensures fits { IfOk result (λ r. r.by < 2 ^ 127) }
    ensures form { IfOk result (λ r. form_of r.formula ≡ evaluate (stage2 x (form_of f.now))) }
    ensures wide { IsErrOf result refusal.Wide → IsWide (stage2 x (form_of f.now)) }
    ensures narrow { IfOk result (λ _. IsWide (stage2 x (form_of f.now)) → IsWide (form_of f.now)) }
{
    let Some(by) = multiplier(f, x, 1) else {
        return Err(Refusal::Wide);
    };
    let mut members = Gathered::new(alloc, Connective::And);
    members.add(apply(alloc, &Change::Scale(x, by), f)?)?;
    let own = Literal {
        relation: Relation::Multiple(by),
        sum: single(alloc, x, Sign::Plus)?,
    };
    members.add(evaluated(own))?;
    Ok(Scaling {
        by,
        formula: members.finish(),
    })
}

// The first two stages for `x`, evaluated.
pub(crate) fn scaled(alloc: Global, x: Var, f: &Pure, budget: u64) -> Result<Scaling, Stop>
    requires { budget ≤ 2 ^ 30 }
    ensures by { IfOk result (λ r. r.by ≡ multiplier (place x) (evaluate (normal_form (assertion_of f.now))) 1) }
    ensures fits { IfOk result (λ r. r.by < 2 ^ 127) }
    ensures form { IfOk result (λ r. form_of r.formula ≡ evaluate (scaled_form x (assertion_of f.now))) }
    ensures some { IfOk result (λ _. 1 ≤ budget) }
    ensures first { IfOk result (λ _. IsWithin budget (normal_form (assertion_of f.now))) }
    ensures second { IfOk result (λ _. IsWithin budget (scaled_form x (assertion_of f.now))) }
    ensures atoms { IsErrOf result Atoms → PassesAtoms budget x (assertion_of f.now) }
    ensures wide { IsErrOf result Wide → PassesBits budget x (assertion_of f.now) }
{
    if count_normal(f, budget) > budget {
        return Err(Stop::Atoms);
    }
    let normal = normalize(alloc, true, f)?;
    if count_atoms(&normal, budget) >= budget {
        return Err(Stop::Atoms);
    }
    Ok(second_stage(alloc, &normal, x)?)
}

/// A formula without `x` that is true exactly where some integer, as `x`, makes `f` true: the result of plain
/// elimination. `f` has neither quantifiers nor bag literals, its sums are in order, and `budget` is at most
/// 2^30.
///
/// The first stage that passes a bound is the one that is answered: `Atoms` where it has more than `budget`
/// atoms, and otherwise `Wide` where a number of it passes 128 bits.
pub fn eliminate(alloc: Global, x: Var, f: &Pure, budget: u64) -> Result<Pure, Stop>
    requires simple { IsTrue (is_simple (assertion_of f.now)) }
    requires ordered { IsOrdered f.now }
    requires small { budget ≤ 2 ^ 30 }
    ensures exact { IfOk result (λ r. assertion_of r ≡ without_variable x (assertion_of f.now)) }
    ensures truth { IfOk result (λ r. (s : Stack) → ((y : ℤ) × TrueAt (with_value x (number_value y) s) f.now) ↔ TrueAt s r) }
    ensures lacks { IfOk result (λ r. is_free x r ≡ false) }
    ensures ordered { IfOk result IsOrdered }
    ensures within { IfOk result (λ _. StaysWithin budget x (assertion_of f.now)) }
    ensures atoms { IsErrOf result Atoms → PassesAtoms budget x (assertion_of f.now) }
    ensures wide { IsErrOf result Wide → PassesBits budget x (assertion_of f.now) }
{
    let scaled = scaled(alloc, x, f, budget)?;
    let cases = third_stage(alloc, &scaled.formula, x, budget)?;
    Ok(to_pure(alloc, &cases)?)
}
