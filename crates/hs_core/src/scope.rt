ghost use Rattle.std.specs.Prelude.{◌≡◌};
ghost use Rattle.hs_heap.specs.Meaning.{is_in};
ghost use Rattle.hs_core.specs.Tests.{in_scope, is_slot};

use hs_pure::Var;

// The variables that may occur at a place of a formula.
#[derive(Clone, Copy)]
pub enum Scope<'a> {
    // The number variables from 1 to a number.
    UpTo(u64),
    With(Var, &'a Scope<'a>),
    WithAll(&'a [Var], &'a Scope<'a>),
}

impl Scope<'_> {
    pub fn has(&self, v: Var) -> bool
        ensures { result ≡ in_scope self.now v }
    {
        match self {
            Scope::UpTo(count) => is_slot(*count, v),
            Scope::With(u, outer) => v == *u || outer.has(v),
            Scope::WithAll(vs, outer) => is_listed(vs, v) || outer.has(v),
        }
    }
}

// Whether `v` is one of the number variables from 1 to a number.
pub fn is_slot(count: u64, v: Var) -> bool
    ensures { result ≡ is_slot count v }
{
    !v.bag && 1 <= v.number && u64::from(v.number) <= count
}

pub fn is_listed(vs: &[Var], v: Var) -> bool
    ensures { result ≡ is_in v vs.now }
{
    for w in vs {
        if v == *w {
            return true;
        }
    }
    false
}
