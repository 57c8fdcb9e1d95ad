ghost use Rattle.std.specs.Prelude.{◌≡◌, map};
ghost use Rattle.std.specs.List.{list_all};
ghost use Rattle.hs_heap.specs.Tests.{sum_fits, pure_fits};
ghost use Rattle.hs_core.specs.Tests.{is_slot, is_simple, condition_fits};

use crate::pures::{pure_fits, sum_fits};
use crate::scope::Scope;
use hs_pure::{Lin, Pure};

// Whether a term is in order, of slots, and light.
pub fn term_fits(term: &Lin, slots: u64) -> bool
    ensures { result ≡ sum_fits term.now (is_slot slots) }
{
    let scope = Scope::UpTo(slots);
    sum_fits(term, &scope)
}

// Whether a condition is well formed, of slots, and has no quantifier and no bag literal.
pub fn condition_fits(p: &Pure, slots: u64) -> bool
    ensures { result ≡ condition_fits slots p.now }
{
    is_simple(p) && slots_fit(p, slots)
}

// Nothing fits that binds, since no number is below 0.
fn slots_fit(p: &Pure, slots: u64) -> bool
    ensures { result ≡ pure_fits (is_slot slots) 0 p.now (is_slot slots) }
{
    let scope = Scope::UpTo(slots);
    pure_fits(p, &scope, 0, &scope)
}

// Whether a formula has no quantifier and no bag literal.
#[cycle(simple)]
fn is_simple(p: &Pure) -> bool
    ensures { result ≡ is_simple p.now }
{
    match p {
        Pure::Eq(_, _) => true,
        Pure::Lt(_, _) => true,
        Pure::Le(_, _) => true,
        Pure::Divides(_, _) => true,
        Pure::BagEq(_, _) => false,
        Pure::Subset(_, _) => false,
        Pure::Member(_, _) => false,
        Pure::AllOf(_, _, _) => false,
        Pure::Not(p) => is_simple(p.get()),
        Pure::And(ps) => are_simple(ps.as_slice()),
        Pure::Or(ps) => are_simple(ps.as_slice()),
        Pure::Exists(_, _) => false,
        Pure::Forall(_, _) => false,
    }
}

#[cycle(simple)]
fn are_simple(ps: &[Pure]) -> bool
    ensures { result ≡ list_all (λ b. b) (map is_simple ps.now) }
{
    for p in ps {
        if !is_simple(p) {
            return false;
        }
    }
    true
}
