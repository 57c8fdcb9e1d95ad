ghost use Rattle.std.specs.Prelude.{◌≡◌, map};
ghost use Rattle.std.specs.List.{list_all};
ghost use Rattle.hs_heap.specs.Tests.{number_fits, rises_from, is_light, sum_fits, bag_fits, binder_fits, both_fit, pure_fits, conjunct_fits};
ghost use Rattle.hs_heap.specs.WellFormed.{is_and};
ghost use Rattle.hs_core.specs.Tests.{in_scope, under_fits};

use crate::scope::Scope;
use hs_pure::{Bag, Lin, Pure, Var};

// What the absolute coefficients and the constant of a sum may add up to.
const MAX_WEIGHT: u128 = 1 << 126;

// Whether a conjunct is no `And`, what is free in it is in scope, and it is well formed.
pub fn conjunct_fits(p: &Pure, free: &Scope, next: u32, scope: &Scope) -> bool
    ensures { result ≡ conjunct_fits (in_scope free.now) next (in_scope scope.now) p.now }
{
    !is_and(p) && p.bags_plain() && pure_fits(p, free, next, scope)
}

fn is_and(p: &Pure) -> bool
    ensures { result ≡ is_and p.now }
{
    matches!(p, Pure::And(_))
}

pub fn number_fits(v: Var, next: u32) -> bool
    ensures { result ≡ number_fits next v }
{
    1 <= v.number && v.number < next
}

// Whether what is free in a formula is in scope, and all but its bag literals is well formed. What is bound has a
// number below `next` and is not in `free`.
#[cycle(fits)]
pub fn pure_fits(p: &Pure, free: &Scope, next: u32, scope: &Scope) -> bool
    ensures { result ≡ pure_fits (in_scope free.now) next p.now (in_scope scope.now) }
{
    match p {
        Pure::Eq(a, b) => sum_fits(a, scope) && sum_fits(b, scope),
        Pure::Lt(a, b) => sum_fits(a, scope) && sum_fits(b, scope),
        Pure::Le(a, b) => sum_fits(a, scope) && sum_fits(b, scope),
        Pure::Divides(_, a) => sum_fits(a, scope),
        Pure::BagEq(a, b) => bag_fits(a, scope) && bag_fits(b, scope),
        Pure::Subset(a, b) => bag_fits(a, scope) && bag_fits(b, scope),
        Pure::Member(a, b) => sum_fits(a, scope) && bag_fits(b, scope),
        Pure::AllOf(u, b, p) => bag_fits(b, scope) && under_fits(*u, p.get(), free, next, scope),
        Pure::Not(p) => pure_fits(p.get(), free, next, scope),
        Pure::And(ps) => both_fit(ps.as_slice(), free, next, scope),
        Pure::Or(ps) => both_fit(ps.as_slice(), free, next, scope),
        Pure::Exists(u, p) => under_fits(*u, p.get(), free, next, scope),
        Pure::Forall(u, p) => under_fits(*u, p.get(), free, next, scope),
    }
}

// The same under a binder of a variable.
#[cycle(fits)]
fn under_fits(u: Var, p: &Pure, free: &Scope, next: u32, scope: &Scope) -> bool
    ensures { result ≡ under_fits (in_scope free.now) next u p.now (in_scope scope.now) }
{
    let inner = Scope::With(u, &*scope);
    binder_fits(u, free, next) && pure_fits(p, free, next, &inner)
}

// The members of an `And` or `Or`, which are not exactly one.
#[cycle(fits)]
fn both_fit(ps: &[Pure], free: &Scope, next: u32, scope: &Scope) -> bool
    ensures { result ≡ both_fit (map (pure_fits (in_scope free.now) next) ps.now) (in_scope scope.now) }
{
    if ps.len() == 1 {
        return false;
    }
    for p in ps {
        if !pure_fits(p, free, next, scope) {
            return false;
        }
    }
    true
}

fn binder_fits(u: Var, free: &Scope, next: u32) -> bool
    ensures { result ≡ binder_fits (in_scope free.now) next u }
{
    !u.bag && number_fits(u, next) && !free.has(u)
}

fn bag_fits(b: &Bag, scope: &Scope) -> bool
    ensures { result ≡ bag_fits b.now (in_scope scope.now) }
{
    match b {
        Bag::Empty => true,
        Bag::Name(v) => v.bag && scope.has(*v),
        Bag::One(a) => sum_fits(a, scope),
        Bag::Union(a, b) => bag_fits(a.get(), scope) && bag_fits(b.get(), scope),
        Bag::Inter(a, b) => bag_fits(a.get(), scope) && bag_fits(b.get(), scope),
        Bag::Diff(a, b) => bag_fits(a.get(), scope) && bag_fits(b.get(), scope),
    }
}

// Whether the terms are in order, their variables in scope, and the numbers add up to little.
pub fn sum_fits(a: &Lin, scope: &Scope) -> bool
    ensures { result ≡ sum_fits a.now (in_scope scope.now) }
{
    is_ordered(a.terms.as_slice()) && is_light(a) && terms_are_in(a.terms.as_slice(), scope)
}

fn terms_are_in(terms: &[(Var, i128)], scope: &Scope) -> bool
    ensures { result ≡ list_all (λ t. in_scope scope.now t.0) terms.now }
{
    terms.iter().all(|t| scope.has(t.0))
}

// Whether the terms are of number variables, by rising number and without coefficient 0.
fn is_ordered(terms: &[(Var, i128)]) -> bool
    ensures { result ≡ rises_from 0 terms.now }
{
    let mut least = 0;
    for t in terms {
        let number = u64::from(t.0.number);
        if number < least || t.0.bag || t.1 == 0 {
            return false;
        }
        least = number + 1;
    }
    true
}

fn is_light(a: &Lin) -> bool
    ensures { result ≡ is_light a.now }
{
    let mut room = MAX_WEIGHT;
    for t in a.terms.as_slice() {
        match room.checked_sub(t.1.unsigned_abs()) {
            Some(rest) => room = rest,
            None => return false,
        }
    }
    a.constant.unsigned_abs() <= room
}
