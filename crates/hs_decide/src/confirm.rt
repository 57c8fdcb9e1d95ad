//! Values that are tried on a formula.

ghost use Rattle.std.specs.Prelude.{◌≡◌, map, IsTrue};
ghost use Rattle.std.specs.List.{list_any};
ghost use Rattle.hs_pure.specs.Eval.{stack_of, has_quantifiers};
ghost use Rattle.hs_pure.specs.Truth.{TrueAt};

use hs_pure::{Pure, Valuation};

// Whether `Exists` or `Forall` occurs.
#[cycle(has_quantifiers)]
pub(crate) fn has_quantifiers(p: &Pure) -> bool
    ensures { result ≡ has_quantifiers p.now }
{
    match p {
        Pure::Eq(_, _) | Pure::Lt(_, _) | Pure::Le(_, _) | Pure::Divides(_, _) => false,
        Pure::BagEq(_, _) | Pure::Subset(_, _) | Pure::Member(_, _) => false,
        Pure::AllOf(_, _, p) => has_quantifiers(p.get()),
        Pure::Not(p) => has_quantifiers(p.get()),
        Pure::And(ps) => any_has(ps.as_slice()),
        Pure::Or(ps) => any_has(ps.as_slice()),
        Pure::Exists(_, _) => true,
        Pure::Forall(_, _) => true,
    }
}

#[cycle(has_quantifiers)]
fn any_has(ps: &[Pure]) -> bool
    ensures { result ≡ list_any (λ b. b) (map has_quantifiers ps.now) }
{
    for p in ps {
        if has_quantifiers(p) {
            return true;
        }
    }
    false
}

/// Whether the values are seen to make the formula true: not where it has quantifiers, or a number of the evaluation
/// passes 128 bits.
pub(crate) fn is_true(p: &Pure, v: &Valuation) -> bool
    ensures { IsTrue result → TrueAt (stack_of v.now) p.now }
{
    if has_quantifiers(p) {
        return false;
    }
    match p.eval(v) {
        Ok(truth) => truth,
        Err(_) => false,
    }
}
