//! Where something is bound.

ghost use Rattle.std.specs.Prelude.{◌≡◌, map};
ghost use Rattle.std.specs.List.{list_any};
ghost use Rattle.hs_pure.specs.Eval.{has_quantifiers};
ghost use Rattle.hs_tests_formulas.specs.Binding.{binds};

use hs_pure::Pure;

// Whether `Exists` or `Forall` occurs.
#[cycle(has_quantifiers)]
pub fn has_quantifiers(p: &Pure) -> bool
    ensures { result ≡ has_quantifiers p.now }
{
    match p {
        Pure::Eq(_, _) | Pure::Lt(_, _) | Pure::Le(_, _) | Pure::Divides(_, _) => false,
        Pure::BagEq(_, _) | Pure::Subset(_, _) | Pure::Member(_, _) => false,
        Pure::AllOf(_, _, p) => has_quantifiers(p.get()),
        Pure::Not(p) => has_quantifiers(p.get()),
        Pure::And(ps) => any_has(ps.as_slice()),
        Pure::Or(ps) => any_has(ps.as_slice()),
        Pure::Exists(_, _) => true,
        Pure::Forall(_, _) => true,
    }
}

#[cycle(has_quantifiers)]
fn any_has(ps: &[Pure]) -> bool
    ensures { result ≡ list_any (λ b. b) (map has_quantifiers ps.now) }
{
    for p in ps {
        if has_quantifiers(p) {
            return true;
        }
    }
    false
}

// Whether `Exists`, `Forall` or `AllOf` occurs.
#[cycle(binds)]
pub fn binds(p: &Pure) -> bool
    ensures { result ≡ binds p.now }
{
    match p {
        Pure::Eq(_, _) | Pure::Lt(_, _) | Pure::Le(_, _) | Pure::Divides(_, _) => false,
        Pure::BagEq(_, _) | Pure::Subset(_, _) | Pure::Member(_, _) => false,
        Pure::AllOf(_, _, _) => true,
        Pure::Not(p) => binds(p.get()),
        Pure::And(ps) => any_binds(ps.as_slice()),
        Pure::Or(ps) => any_binds(ps.as_slice()),
        Pure::Exists(_, _) => true,
        Pure::Forall(_, _) => true,
    }
}

#[cycle(binds)]
fn any_binds(ps: &[Pure]) -> bool
    ensures { result ≡ list_any (λ b. b) (map binds ps.now) }
{
    for p in ps {
        if binds(p) {
            return true;
        }
    }
    false
}
