//! The formulas that an approximation is made of.

ghost use Rattle.std.specs.Prelude.{◌≡◌, ◌<◌, ◌-◌, ◌^◌, ◌∷◌, [], ◌++◌, map, IfOk, OnOk};
ghost use Rattle.hs_pure.specs.declared.pure.Pure.TheVariants.{Eq, Lt, Not};
ghost use Rattle.hs_xpure.specs.Approximation.{conjunction, disjunction, address, variable, null, apart, all_apart, node_formed};

use crate::formed::Formed;
use hs_pure::{Lin, NoMemory, Pure, Var};
use sqlite_items::{Boxed, Items};
use std::alloc::Global;

/// All of them; one stands alone.
pub fn conjunction(mut ps: Items<Pure>) -> Pure
    ensures { result ≡ conjunction ps }
{
    if ps.len() == 1 {
        if let Some(p) = ps.pop() {
            return p;
        }
    }
    Pure::And(ps)
}

/// One of them; one stands alone.
pub fn disjunction(mut ps: Items<Pure>) -> Pure
    ensures { result ≡ disjunction ps }
{
    if ps.len() == 1 {
        if let Some(p) = ps.pop() {
            return p;
        }
    }
    Pure::Or(ps)
}

/// A list of one.
pub fn alone(alloc: Global, p: Pure) -> Result<Items<Pure>, NoMemory>
    ensures { IfOk result (λ ps. ps ≡ p ∷ []) }
{
    let mut ps = Items::new(alloc);
    ps.push(p)?;
    Ok(ps)
}

// The variable that stands for an address.
fn address(number: u32) -> Var
    ensures { result ≡ address number }
{
    Var { number, bag: false }
}

fn variable(alloc: Global, v: Var) -> Result<Lin, NoMemory>
    ensures { IfOk result (λ a. a ≡ variable v) }
{
    let mut terms = Items::new(alloc);
    terms.push((v, 1))?;
    Ok(Lin { terms, constant: 0 })
}

fn null(alloc: Global) -> Lin
    ensures { result ≡ null }
{
    Lin {
        terms: Items::new(alloc),
        constant: 0,
    }
}

// Two variables have one value.
fn equal(alloc: Global, u: Var, v: Var) -> Result<Pure, NoMemory>
    ensures { IfOk result (λ p. p ≡ Eq (variable u) (variable v)) }
{
    let left = variable(alloc, u)?;
    let right = variable(alloc, v)?;
    Ok(Pure::Eq(left, right))
}

fn is_null(alloc: Global, v: Var) -> Result<Pure, NoMemory>
    ensures { IfOk result (λ p. p ≡ Eq (variable v) null) }
{
    let left = variable(alloc, v)?;
    Ok(Pure::Eq(left, null(alloc)))
}

fn is_positive(alloc: Global, v: Var) -> Result<Pure, NoMemory>
    ensures { IfOk result (λ p. p ≡ Lt null (variable v)) }
{
    let right = variable(alloc, v)?;
    Ok(Pure::Lt(null(alloc), right))
}

fn differ(alloc: Global, u: Var, v: Var) -> Result<Pure, NoMemory>
    ensures { IfOk result (λ p. p ≡ Not (Eq (variable u) (variable v))) }
{
    let equal = equal(alloc, u, v)?;
    Ok(Pure::Not(Boxed::new(alloc, equal)?))
}

// One of two addresses is null, or they differ.
fn apart(alloc: Global, k: u32, l: u32) -> Result<Pure, NoMemory>
    ensures { IfOk result (λ p. p ≡ apart k l) }
{
    let mut cases = Items::new(alloc);
    cases.push(is_null(alloc, address(k))?)?;
    cases.push(is_null(alloc, address(l))?)?;
    cases.push(differ(alloc, address(k), address(l))?)?;
    Ok(Pure::Or(cases))
}

// Adds what says that an address is apart from each of the others.
fn push_apart(alloc: Global, ps: &mut Items<Pure>, k: u32, others: &[u32]) -> Result<(), NoMemory>
    ensures { OnOk result (ps.new ≡ ps.old ++ map (apart k) others.now) }
{
    for l in others {
        ps.push(apart(alloc, k, *l)?)?;
    }
    Ok(())
}

/// Adds what says that each two of the addresses are apart.
pub fn push_all_apart(
    alloc: Global,
    ps: &mut Items<Pure>,
    addresses: &[u32],
) -> Result<(), NoMemory>
    ensures { OnOk result (ps.new ≡ ps.old ++ all_apart addresses.now) }
{
    for (i, k) in addresses.iter().enumerate() {
        push_apart(alloc, ps, *k, &addresses[i + 1..])?;
    }
    Ok(())
}

/// A node: it has an address, which is not null.
pub fn node_formed(alloc: Global, root: Var, number: u32) -> Result<Formed, NoMemory>
    requires { number < 2 ^ 32 - 1 }
    ensures { IfOk result (λ f. f ≡ node_formed root number) }
{
    let mut pure = alone(alloc, equal(alloc, address(number), root)?)?;
    pure.push(is_positive(alloc, root)?)?;
    let mut addresses = Items::new(alloc);
    addresses.push(number)?;
    Ok(Formed {
        pure,
        addresses,
        next: number + 1,
    })
}
