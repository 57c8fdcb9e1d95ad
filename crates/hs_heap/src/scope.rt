ghost use Rattle.std.specs.Prelude.{◌≡◌};
ghost use Rattle.hs_heap.specs.Meaning.{is_in};
ghost use Rattle.hs_heap.specs.Tests.{in_scope};

use crate::pures::number_fits;
use hs_pure::Var;

// The variables that may occur at a place of a formula.
#[derive(Clone, Copy)]
pub enum Scope<'a> {
    Listed(&'a [Var]),
    // Those of the listed variables that have a number from 1 on and below the bound.
    Numbered(&'a [Var], u32),
    With(Var, &'a Scope<'a>),
    WithAll(&'a [Var], &'a Scope<'a>),
}

impl Scope<'_> {
    pub fn has(&self, v: Var) -> bool
        ensures { result ≡ in_scope self.now v }
    {
        match self {
            Scope::Listed(vs) => is_listed(vs, v),
            Scope::Numbered(vs, next) => number_fits(v, *next) && is_listed(vs, v),
            Scope::With(u, outer) => v == *u || outer.has(v),
            Scope::WithAll(vs, outer) => is_listed(vs, v) || outer.has(v),
        }
    }
}

pub fn is_listed(vs: &[Var], v: Var) -> bool
    ensures { result ≡ is_in v vs.now }
{
    for w in vs {
        if v == *w {
            return true;
        }
    }
    false
}
