//! The right side of a question: what the right side of a goal says, for some values of the open variables.

ghost use Rattle.std.specs.Prelude.{◌≡◌, ◌++◌, ◌∷◌, [], IfOk, OnOk};
ghost use Rattle.std.specs.List.{list_any};
ghost use Rattle.hs_pure.specs.declared.pure.Pure.TheVariants.{Exists};
ghost use Rattle.hs_pure.specs.Occurs.{is_free};
ghost use Rattle.hs_xpure.specs.Approximation.{conjunction};
ghost use Rattle.hs_rules.specs.Parts.{has_open};
ghost use Rattle.hs_rules.specs.Questions.{put_in_order, in_order, for_some, closed_of, others_of, open_in, for_open, asked};

use crate::parts::pure_of;
use hs_goal::Goal;
use hs_pure::{NoMemory, Pure, Var};
use sqlite_items::{Boxed, Items};
use std::alloc::Global;

/// What the right side asks of numbers and bags.
pub fn asked(alloc: Global, goal: &Goal) -> Result<Pure, NoMemory>
    ensures { IfOk result (λ p. p ≡ asked goal.now) }
{
    let opens = goal.opens.as_slice();
    let conjuncts = pure_of(&goal.right);
    let mut all = closed_of(alloc, opens, conjuncts)?;
    let others = others_of(alloc, opens, conjuncts)?;
    push_for_open(alloc, &mut all, opens, others)?;
    Ok(conjunction(all))
}

/// All of them; one stands alone.
pub fn conjunction(mut ps: Items<Pure>) -> Pure
    ensures { result ≡ conjunction ps }
{
    if ps.len() == 1 {
        if let Some(p) = ps.pop() {
            return p;
        }
    }
    Pure::And(ps)
}

fn has_open(opens: &[Var], p: &Pure) -> bool
    ensures { result ≡ has_open opens.now p.now }
{
    opens.iter().any(|v| p.has(*v))
}

fn closed_of(alloc: Global, opens: &[Var], conjuncts: &[Pure]) -> Result<Items<Pure>, NoMemory>
    ensures { IfOk result (λ all. all ≡ closed_of opens.now conjuncts.now) }
{
    let mut all = Items::new(alloc);
    for p in conjuncts {
        if !has_open(opens, p) {
            all.push(p.copy(alloc)?)?;
        }
    }
    Ok(all)
}

fn others_of(alloc: Global, opens: &[Var], conjuncts: &[Pure]) -> Result<Items<Pure>, NoMemory>
    ensures { IfOk result (λ all. all ≡ others_of opens.now conjuncts.now) }
{
    let mut all = Items::new(alloc);
    for p in conjuncts {
        if has_open(opens, p) {
            all.push(p.copy(alloc)?)?;
        }
    }
    Ok(all)
}

// Adds the conjuncts that have open variables, for some values of these.
fn push_for_open(
    alloc: Global,
    all: &mut Items<Pure>,
    opens: &[Var],
    others: Items<Pure>,
) -> Result<(), NoMemory>
    ensures { OnOk result (all.new ≡ all.old ++ for_open opens.now others) }
{
    if others.is_empty() {
        return Ok(());
    }
    let mut occurring = Items::new(alloc);
    push_open_in(&mut occurring, opens, others.as_slice())?;
    let variables = in_order(alloc, occurring.as_slice())?;
    all.push(some_values(alloc, variables.as_slice(), others)?)?;
    Ok(())
}

fn some_values(alloc: Global, variables: &[Var], others: Items<Pure>) -> Result<Pure, NoMemory>
    ensures { IfOk result (λ p. p ≡ for_some variables.now (conjunction others)) }
{
    for_some(alloc, variables, conjunction(others))
}

fn for_some(alloc: Global, variables: &[Var], p: Pure) -> Result<Pure, NoMemory>
    ensures { IfOk result (λ q. q ≡ for_some variables.now p) }
{
    match variables {
        [] => Ok(p),
        [v, rest @ ..] => exists(alloc, *v, for_some(alloc, rest, p)?),
    }
}

fn exists(alloc: Global, v: Var, p: Pure) -> Result<Pure, NoMemory>
    ensures { IfOk result (λ q. q ≡ Exists v p) }
{
    Ok(Pure::Exists(v, Boxed::new(alloc, p)?))
}

fn is_in_some(ps: &[Pure], v: Var) -> bool
    ensures { result ≡ list_any (is_free v) ps.now }
{
    ps.iter().any(|p| p.has(v))
}

// Adds the variables that occur free in one of the formulas.
#[tactic(auto, using(crate::proofs::Opens::open_in_there, crate::proofs::Opens::open_in_absent))]
fn push_open_in(all: &mut Items<Var>, opens: &[Var], ps: &[Pure]) -> Result<(), NoMemory>
    ensures { OnOk result (all.new ≡ all.old ++ open_in opens.now ps.now) }
{
    match opens {
        [] => Ok(()),
        [v, rest @ ..] => {
            if is_in_some(ps, *v) {
                all.push(*v)?;
                push_open_in(all, rest, ps)
            } else {
                push_open_in(all, rest, ps)
            }
        }
    }
}

fn in_order(alloc: Global, vs: &[Var]) -> Result<Items<Var>, NoMemory>
    ensures { IfOk result (λ all. all ≡ in_order vs.now) }
{
    match vs {
        [] => Ok(Items::new(alloc)),
        [v, rest @ ..] => {
            let rest = in_order(alloc, rest)?;
            let mut all = Items::new(alloc);
            push_in_order(&mut all, *v, rest.as_slice())?;
            Ok(all)
        }
    }
}

// Adds `v` in its place among variables of rising numbers.
fn push_in_order(all: &mut Items<Var>, v: Var, vs: &[Var]) -> Result<(), NoMemory>
    ensures { OnOk result (all.new ≡ all.old ++ put_in_order v vs.now) }
{
    match vs {
        [] => {
            all.push(v)?;
            Ok(())
        }
        [w, rest @ ..] => {
            if v.number <= w.number {
                all.push(v)?;
                push_all(all, vs)
            } else {
                all.push(*w)?;
                push_in_order(all, v, rest)
            }
        }
    }
}

fn push_all(all: &mut Items<Var>, vs: &[Var]) -> Result<(), NoMemory>
    ensures { OnOk result (all.new ≡ all.old ++ vs.now) }
{
    for v in vs {
        all.push(*v)?;
    }
    Ok(())
}
