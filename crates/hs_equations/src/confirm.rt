//! Values that are tried on a question.

ghost use Rattle.std.specs.Prelude.{◌≡◌, ◌↔◌, map, IfSome, IsTrue};
ghost use Rattle.std.specs.List.{list_any};
ghost use Rattle.hs_pure.specs.Eval.{stack_of, has_quantifiers};
ghost use Rattle.hs_pure.specs.Truth.{TrueAt};
ghost use Rattle.hs_equations.specs.Finding.{IsCounter};

use hs_pure::{Pure, Valuation};

// Whether `Exists` or `Forall` occurs.
#[cycle(has_quantifiers)]
pub(crate) fn has_quantifiers(p: &Pure) -> bool
    ensures { result ≡ has_quantifiers p.now }
{
    match p {
        Pure::Eq(_, _) | Pure::Lt(_, _) | Pure::Le(_, _) | Pure::Divides(_, _) => false,
        Pure::BagEq(_, _) | Pure::Subset(_, _) | Pure::Member(_, _) => false,
        Pure::AllOf(_, _, p) => has_quantifiers(p.get()),
        Pure::Not(p) => has_quantifiers(p.get()),
        Pure::And(ps) => any_has(ps.as_slice()),
        Pure::Or(ps) => any_has(ps.as_slice()),
        Pure::Exists(_, _) => true,
        Pure::Forall(_, _) => true,
    }
}

#[cycle(has_quantifiers)]
fn any_has(ps: &[Pure]) -> bool
    ensures { result ≡ list_any (λ b. b) (map has_quantifiers ps.now) }
{
    for p in ps {
        if has_quantifiers(p) {
            return true;
        }
    }
    false
}

// Whether the values make the formula true, if that is seen.
fn truth(p: &Pure, v: &Valuation) -> Option<bool>
    ensures { IfSome result (λ b. IsTrue b ↔ TrueAt (stack_of v.now) p.now) }
{
    if has_quantifiers(p) {
        return None;
    }
    match p.eval(v) {
        Ok(truth) => Some(truth),
        Err(_) => None,
    }
}

// Whether the values are seen to make the formula true.
fn is_true(p: &Pure, v: &Valuation) -> bool
    ensures { IsTrue result → TrueAt (stack_of v.now) p.now }
{
    match truth(p, v) {
        Some(b) => b,
        None => false,
    }
}

// Whether the values are seen to make the formula false.
fn is_false(p: &Pure, v: &Valuation) -> bool
    ensures { IsTrue result → ¬ (TrueAt (stack_of v.now) p.now) }
{
    match truth(p, v) {
        Some(b) => !b,
        None => false,
    }
}

// Whether the values are seen to make the formula as it is expected.
pub(crate) fn is_told(p: &Pure, v: &Valuation, expected: bool) -> bool {
    if expected {
        is_true(p, v)
    } else {
        is_false(p, v)
    }
}

// Whether the values are seen to make the first formula true and the second false.
pub(crate) fn is_counter(a: &Pure, b: &Pure, v: &Valuation) -> bool
    ensures { IsTrue result → IsCounter a.now b.now v.now }
{
    if is_true(a, v) { is_false(b, v) } else { false }
}
