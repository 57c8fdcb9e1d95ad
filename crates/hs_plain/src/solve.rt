//! Values that make a formula true, variable by variable.

ghost use Rattle.std.specs.Prelude.{◌≡◌, ◌≤◌, ◌<◌, ◌^◌, ◌⊎◌, ℤ, [], ◌∷◌, IfOk, IfErr, IfSome, None, IsErrOf, IsTrue};
ghost use Rattle.std.specs.List.{Contains};
ghost use Rattle.hs_pure.specs.declared.var.Var.{Var};
ghost use Rattle.hs_pure.specs.Assertion.{assertion_of};
ghost use Rattle.hs_pure.specs.Eval.{stack_of, NumbersFit};
ghost use Rattle.hs_pure.specs.Mirror.{is_free_in};
ghost use Rattle.hs_pure.specs.Stack.{Stack, with_value, number_value};
ghost use Rattle.hs_pure.specs.Sums.{IsOrdered};
ghost use Rattle.hs_pure.specs.Truth.{IsTrueAt, TrueAt};
ghost use Rattle.hs_elimination.specs.Normal.{is_simple};
ghost use Rattle.hs_elimination.specs.Elimination.{without_variable};
ghost use Rattle.hs_elimination.specs.Witness.{plain_value, PassesValues};
ghost use Rattle.hs_cooper.specs.declared.stop.Stop.TheVariants.{Atoms, Wide, Memory};
ghost use Rattle.hs_quantifiers.specs.Size.{stage_size};
ghost use Rattle.hs_plain.specs.Size.{chain_size};
ghost use Rattle.hs_quantifiers.specs.Span.{HasWideStages};
ghost use Rattle.hs_plain.specs.Span.{zeros, value_or_zero, plain_stack, HasWideChain};

use hs_cooper::{Stop, eliminate, witness};
use hs_pure::{Pure, Valuation, Var};
use sqlite_items::Items;
use std::alloc::Global;

// The valuation without variables, if it makes `p` true.
fn zeros(alloc: Global, p: &Pure) -> Result<Option<Valuation>, Stop>
    requires { IsTrue (is_simple (assertion_of p.now)) }
    ensures found { IfOk result (λ o. IfSome o (λ v. TrueAt (stack_of v) p.now)) }
    ensures zeros { IfOk result (λ o. IfSome o (λ v. (v.bags ≡ []) × (stack_of v ≡ zeros))) }
    ensures none { IfOk result (λ o. o ≡ None → ¬ (TrueAt zeros p.now)) }
    ensures atoms { ¬ (IsErrOf result Atoms) }
    ensures wide { IsErrOf result Wide → ¬ (NumbersFit zeros (assertion_of p.now)) }
{
    let v = Valuation {
        numbers: Items::new(alloc),
        bags: Items::new(alloc),
    };
    match p.eval(&v) {
        Ok(true) => Ok(Some(v)),
        Ok(false) => Ok(None),
        Err(_) => Err(Stop::Wide),
    }
}

// The valuation with `y` as the number of `x`.
fn with_number(alloc: Global, x: Var, y: i128, v: Valuation) -> Result<Valuation, Stop>
    requires { v.bags ≡ [] }
    ensures bags { IfOk result (λ w. w.bags ≡ []) }
    ensures stack { IfOk result (λ w. stack_of w ≡ with_value x (number_value y) (stack_of v)) }
    ensures memory { IfErr result (λ e. e ≡ Memory) }
{
    let Valuation {
        numbers: later,
        bags,
    } = v;
    let mut numbers = Items::new(alloc);
    numbers.push((x, y))?;
    numbers.append(later)?;
    Ok(Valuation { numbers, bags })
}

// The values, and the plain value of `x` at them.
fn with_witness(
    alloc: Global,
    x: Var,
    p: &Pure,
    values: Valuation,
    atoms: u64,
) -> Result<Option<Valuation>, Stop>
    requires simple { IsTrue (is_simple (assertion_of p.now)) }
    requires ordered { IsOrdered p.now }
    requires small { atoms ≤ 2 ^ 30 }
    requires bags { values.bags ≡ [] }
    ensures found { IfOk result (λ o. IfSome o (λ w. TrueAt (stack_of w) p.now)) }
    ensures plain { IfOk result (λ o. IfSome o (λ w. (w.bags ≡ []) × (stack_of w ≡ with_value x (number_value (value_or_zero (plain_value (stack_of values) x (assertion_of p.now)))) (stack_of values)))) }
    ensures none { IfOk result (λ o. o ≡ None → (y : ℤ) → ¬ (TrueAt (with_value x (number_value y) (stack_of values)) p.now)) }
    ensures atoms { IsErrOf result Atoms → atoms < stage_size x (assertion_of p.now) }
    ensures wide { IsErrOf result Wide → HasWideStages x (assertion_of p.now) ⊎ PassesValues (stack_of values) x (assertion_of p.now) }
{
    match witness(alloc, x, p, &values, atoms)? {
        Some(y) => Ok(Some(with_number(alloc, x, y, values)?)),
        None => Ok(None),
    }
}

// Values of the variables that make `p` true, or none where no stack does.
#[cycle(solving)]
pub(crate) fn solve(
    alloc: Global,
    variables: &[Var],
    p: &Pure,
    atoms: u64,
) -> Result<Option<Valuation>, Stop>
    requires simple { IsTrue (is_simple (assertion_of p.now)) }
    requires ordered { IsOrdered p.now }
    requires small { atoms ≤ 2 ^ 30 }
    requires named { (v : Var) → IsTrue (is_free_in v (assertion_of p.now)) → Contains variables.now v }
    ensures found { IfOk result (λ o. IfSome o (λ v. TrueAt (stack_of v) p.now)) }
    ensures plain { IfOk result (λ o. IfSome o (λ v. (v.bags ≡ []) × (stack_of v ≡ plain_stack variables.now (assertion_of p.now)))) }
    ensures none { IfOk result (λ o. o ≡ None → (s : Stack) → ¬ (TrueAt s p.now)) }
    ensures atoms { IsErrOf result Atoms → atoms < chain_size variables.now (assertion_of p.now) }
    ensures wide { IsErrOf result Wide → HasWideChain variables.now (assertion_of p.now) }
{
    let Some((x, later)) = variables.split_first() else {
        return zeros(alloc, p);
    };
    solve_from(alloc, *x, later, p, atoms)
}

// The same for `x` and the later variables.
#[cycle(solving)]
fn solve_from(
    alloc: Global,
    x: Var,
    later: &[Var],
    p: &Pure,
    atoms: u64,
) -> Result<Option<Valuation>, Stop>
    requires simple { IsTrue (is_simple (assertion_of p.now)) }
    requires ordered { IsOrdered p.now }
    requires small { atoms ≤ 2 ^ 30 }
    requires named { (v : Var) → IsTrue (is_free_in v (assertion_of p.now)) → Contains (x ∷ later.now) v }
    ensures found { IfOk result (λ o. IfSome o (λ v. TrueAt (stack_of v) p.now)) }
    ensures plain { IfOk result (λ o. IfSome o (λ v. (v.bags ≡ []) × (stack_of v ≡ plain_stack (x ∷ later.now) (assertion_of p.now)))) }
    ensures none { IfOk result (λ o. o ≡ None → (s : Stack) → ¬ (TrueAt s p.now)) }
    ensures atoms { IsErrOf result Atoms → atoms < chain_size (x ∷ later.now) (assertion_of p.now) }
    ensures wide { IsErrOf result Wide → HasWideChain (x ∷ later.now) (assertion_of p.now) }
{
    let Some(values) = solve_later(alloc, x, later, p, atoms)? else {
        return Ok(None);
    };
    with_witness(alloc, x, p, values, atoms)
}

// Values of the later variables that let some integer, as `x`, make `p` true.
#[cycle(solving)]
fn solve_later(
    alloc: Global,
    x: Var,
    later: &[Var],
    p: &Pure,
    atoms: u64,
) -> Result<Option<Valuation>, Stop>
    requires simple { IsTrue (is_simple (assertion_of p.now)) }
    requires ordered { IsOrdered p.now }
    requires small { atoms ≤ 2 ^ 30 }
    requires named { (v : Var) → IsTrue (is_free_in v (assertion_of p.now)) → Contains (x ∷ later.now) v }
    ensures found { IfOk result (λ o. IfSome o (λ v. IsTrueAt (stack_of v) (without_variable x (assertion_of p.now)))) }
    ensures plain { IfOk result (λ o. IfSome o (λ v. (v.bags ≡ []) × (stack_of v ≡ plain_stack later.now (without_variable x (assertion_of p.now))))) }
    ensures none { IfOk result (λ o. o ≡ None → (s : Stack) → ¬ (TrueAt s p.now)) }
    ensures atoms { IsErrOf result Atoms → atoms < chain_size (x ∷ later.now) (assertion_of p.now) }
    ensures wide { IsErrOf result Wide → HasWideChain (x ∷ later.now) (assertion_of p.now) }
{
    let rest = eliminate(alloc, x, p, atoms)?;
    solve(alloc, later, &rest, atoms)
}
