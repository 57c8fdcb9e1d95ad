//! Formulas with a term for a variable, without capture.

ghost use Rattle.std.specs.Prelude.{◌≡◌, ◌⊎◌, ◌+◌, suc, map, pos, IfOk, OnErr, IsErrOf};
ghost use Rattle.std.specs.List.{Contains};
ghost use Rattle.hs_pure.specs.declared.pure.Pure.{Pure};
ghost use Rattle.hs_pure.specs.Assertion.{assertion_of, divides, exists, forall};
ghost use Rattle.hs_elimination.specs.Linear.{times};
ghost use Rattle.hs_cooper_forms.specs.declared.refusal.Refusal.TheVariants.{Wide, Memory};
ghost use Rattle.hs_reduction.specs.Layout.{number_variable};
ghost use Rattle.hs_reduction.specs.Instance.{substituted_lin, substituted, instance};
ghost use Rattle.hs_bag_parts.specs.Formulas.{related};
ghost use Rattle.hs_bag_parts.specs.Widths.{TimesIsWide};
ghost use Rattle.hs_bag_parts.specs.Substituting.{substitution, way_of, SumIsWide, SubstitutedIsWide, InstanceIsWide};

use crate::formula::{Relation, and, compare, equal, not, truth};
use crate::sums::{add, times, variable};
use hs_cooper_forms::Refusal;
use hs_pure::{Lin, NoMemory, Pure, Var};
use sqlite_items::{Boxed, Items};
use std::alloc::Global;

/// What stands for each variable: itself, but for one variable a term and for bound variables new ones.
#[derive(Clone, Copy)]
pub(crate) enum Substitution<'a> {
    Term(Var, &'a Lin),
    Bound(Var, u32, &'a Substitution<'a>),
}

/// How an instance says that a term stands for a variable.
#[derive(Clone, Copy, Debug, PartialEq, Eq)]
pub enum Way {
    /// The term stands in its place.
    Replaced,
    /// A new bound variable is equal to the term and stands in its place.
    Stated,
}

impl Substitution<'_> {
    fn term(&self, alloc: Global, v: Var) -> Result<Lin, NoMemory>
        ensures { IfOk result (λ a. a ≡ substitution self.now v) }
    {
        match self {
            Substitution::Term(u, a) => {
                if *u == v {
                    a.copy(alloc)
                } else {
                    Lin::variable(alloc, v)
                }
            }
            Substitution::Bound(u, n, outer) => {
                if *u == v {
                    variable(alloc, *n)
                } else {
                    outer.term(alloc, v)
                }
            }
        }
    }

    // What stands for a variable, times its coefficient.
    fn product(&self, alloc: Global, v: Var, c: i128) -> Result<Lin, Refusal>
        ensures exact { IfOk result (λ r. r ≡ times c (substitution self.now v)) }
        ensures wide { IsErrOf result Wide → TimesIsWide c (substitution self.now v) }
    {
        let term = self.term(alloc, v)?;
        times(alloc, c, &term)
    }

    fn sum(&self, alloc: Global, a: &Lin) -> Result<Lin, Refusal>
        ensures exact { IfOk result (λ r. r ≡ substituted_lin (substitution self.now) a.now) }
        ensures wide { IsErrOf result Wide → SumIsWide (substitution self.now) a.now }
    {
        let mut sum = Lin {
            terms: Items::new(alloc),
            constant: a.constant,
        };
        for t in a.terms.as_slice() {
            let product = self.product(alloc, t.0, t.1)?;
            sum = add(alloc, &sum, &product)?;
        }
        Ok(sum)
    }

    fn compare(
        &self,
        alloc: Global,
        relation: Relation,
        a: &Lin,
        b: &Lin,
    ) -> Result<Boxed<Pure>, Refusal>
        ensures exact { IfOk result (λ r. assertion_of r ≡ related relation (substituted_lin (substitution self.now) a.now) (substituted_lin (substitution self.now) b.now)) }
        ensures wide { IsErrOf result Wide → SumIsWide (substitution self.now) a.now ⊎ SumIsWide (substitution self.now) b.now }
    {
        let a = self.sum(alloc, a)?;
        let b = self.sum(alloc, b)?;
        Ok(compare(alloc, relation, &a, &b)?)
    }
}

// The next number, if there is one.
fn after(n: u32) -> Result<u32, Refusal>
    ensures next { IfOk result (λ m. m ≡ n + 1) }
    ensures memory { OnErr result (IsErrOf result Memory) }
{
    match n.checked_add(1) {
        Some(next) => Ok(next),
        None => Err(Refusal::Memory),
    }
}

fn exists(alloc: Global, n: u32, p: Boxed<Pure>) -> Result<Boxed<Pure>, NoMemory>
    ensures { IfOk result (λ r. assertion_of r ≡ exists (number_variable n) (assertion_of p)) }
{
    let u = Var {
        number: n,
        bag: false,
    };
    Ok(Boxed::new(alloc, Pure::Exists(u, p))?)
}

fn forall(alloc: Global, n: u32, p: Boxed<Pure>) -> Result<Boxed<Pure>, NoMemory>
    ensures { IfOk result (λ r. assertion_of r ≡ forall (number_variable n) (assertion_of p)) }
{
    let u = Var {
        number: n,
        bag: false,
    };
    Ok(Boxed::new(alloc, Pure::Forall(u, p))?)
}

fn divides(alloc: Global, d: i128, a: Lin) -> Result<Boxed<Pure>, NoMemory>
    ensures { IfOk result (λ r. assertion_of r ≡ divides d a) }
{
    Ok(Boxed::new(alloc, Pure::Divides(d, a))?)
}

/// The formula with what stands for its variables. Bound variables get the numbers from `n` on, by their depth.
#[cycle(substitution)]
pub fn substituted(
    alloc: Global,
    f: &Substitution,
    n: u32,
    p: &Pure,
) -> Result<Boxed<Pure>, Refusal>
    ensures exact { IfOk result (λ r. assertion_of r ≡ substituted (substitution f.now) n (assertion_of p.now)) }
    ensures wide { IsErrOf result Wide → SubstitutedIsWide (substitution f.now) n (assertion_of p.now) }
{
    match p {
        Pure::Eq(a, b) => f.compare(alloc, Relation::Equal, a, b),
        Pure::Lt(a, b) => f.compare(alloc, Relation::Less, a, b),
        Pure::Le(a, b) => f.compare(alloc, Relation::AtMost, a, b),
        Pure::Divides(d, a) => Ok(divides(alloc, *d, f.sum(alloc, a)?)?),
        Pure::Not(p) => {
            let inner = substituted(alloc, f, n, p.get())?;
            Ok(not(alloc, inner)?)
        }
        Pure::And(ps) => {
            let parts = substituted_all(alloc, f, n, ps.as_slice())?;
            Ok(Boxed::new(alloc, Pure::And(parts))?)
        }
        Pure::Or(ps) => {
            let parts = substituted_all(alloc, f, n, ps.as_slice())?;
            Ok(Boxed::new(alloc, Pure::Or(parts))?)
        }
        Pure::Exists(u, p) => {
            let next = after(n)?;
            let inner = substituted(alloc, &Substitution::Bound(*u, n, f), next, p.get())?;
            Ok(exists(alloc, n, inner)?)
        }
        Pure::Forall(u, p) => {
            let next = after(n)?;
            let inner = substituted(alloc, &Substitution::Bound(*u, n, f), next, p.get())?;
            Ok(forall(alloc, n, inner)?)
        }
        Pure::BagEq(_, _) | Pure::Subset(_, _) | Pure::Member(_, _) | Pure::AllOf(_, _, _) => Ok(
            truth(alloc)?,
        ),
    }
}

#[cycle(substitution)]
fn substituted_all(
    alloc: Global,
    f: &Substitution,
    n: u32,
    ps: &[Pure],
) -> Result<Items<Pure>, Refusal>
    ensures exact { IfOk result (λ all. map assertion_of all ≡ map (λ p. substituted (substitution f.now) n (assertion_of p)) ps.now) }
    ensures wide { IsErrOf result Wide → (p : Pure) × (Contains ps.now p × SubstitutedIsWide (substitution f.now) n (assertion_of p)) }
{
    let mut all = Items::new(alloc);
    for p in ps {
        let part = substituted(alloc, f, n, p)?;
        all.push(part.into_inner())?;
    }
    Ok(all)
}

/// The formula with a term for a variable. Bound variables get the numbers from `n` on.
pub fn instance(
    alloc: Global,
    way: Way,
    u: Var,
    a: &Lin,
    n: u32,
    p: &Pure,
) -> Result<Boxed<Pure>, Refusal>
    ensures exact { IfOk result (λ r. assertion_of r ≡ instance (way_of way) u a.now n (assertion_of p.now)) }
    ensures wide { IsErrOf result Wide → InstanceIsWide (way_of way) u a.now n (assertion_of p.now) }
{
    match way {
        Way::Replaced => substituted(alloc, &Substitution::Term(u, a), n, p),
        Way::Stated => {
            let next = after(n)?;
            let own = variable(alloc, n)?;
            let inner = substituted(alloc, &Substitution::Term(u, &own), next, p)?;
            let is = equal(alloc, &own, a)?;
            let parts = and(alloc, is, inner)?;
            Ok(exists(alloc, n, parts)?)
        }
    }
}
