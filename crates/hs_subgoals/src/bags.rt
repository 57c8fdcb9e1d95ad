//! Conjuncts with open variables and bag literals.

ghost use Rattle.std.specs.Prelude.{◌≡◌, ◌&&◌, not, map};
ghost use Rattle.std.specs.List.{list_all, list_any};
ghost use Rattle.hs_pure.specs.Occurs.{has_bags, bag_use};
ghost use Rattle.hs_rules.specs.Parts.{has_open};

use hs_pure::{Pure, Var};

/// Whether no conjunct has both an open variable and a bag literal.
pub fn are_apart(opens: &[Var], ps: &[Pure]) -> bool
    ensures { result ≡ list_all (λ p. not (has_open opens.now p && has_bags p)) ps.now }
{
    ps.iter().all(|p| !is_mixed(opens, p))
}

/// Whether the formula has both an open variable and a bag literal.
pub fn is_mixed(opens: &[Var], p: &Pure) -> bool
    ensures { result ≡ (has_open opens.now p.now && has_bags p.now) }
{
    has_open(opens, p) && has_bags(p)
}

fn has_open(opens: &[Var], p: &Pure) -> bool
    ensures { result ≡ has_open opens.now p.now }
{
    opens.iter().any(|v| p.has(*v))
}

#[cycle(bags)]
fn has_bags(p: &Pure) -> bool
    ensures { result ≡ has_bags p.now }
{
    match p {
        Pure::Eq(_, _) | Pure::Lt(_, _) | Pure::Le(_, _) | Pure::Divides(_, _) => false,
        Pure::BagEq(_, _) | Pure::Subset(_, _) | Pure::Member(_, _) | Pure::AllOf(_, _, _) => true,
        Pure::Not(p) => has_bags(p.get()),
        Pure::And(ps) => any_has_bags(ps.as_slice()),
        Pure::Or(ps) => any_has_bags(ps.as_slice()),
        Pure::Exists(_, p) => has_bags(p.get()),
        Pure::Forall(_, p) => has_bags(p.get()),
    }
}

#[cycle(bags)]
fn any_has_bags(ps: &[Pure]) -> bool
    ensures { result ≡ list_any (λ p. p.has) (map bag_use ps.now) }
{
    for p in ps {
        if has_bags(p) {
            return true;
        }
    }
    false
}
