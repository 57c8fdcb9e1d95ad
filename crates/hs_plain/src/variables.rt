//! The free variables of a formula.

ghost use Rattle.std.specs.Prelude.{◌≡◌, false, map, IfOk, OnOk};
ghost use Rattle.std.specs.List.{All, flat_map};
ghost use Rattle.hs_pure.specs.Assertion.{assertion_of};
ghost use Rattle.hs_pure.specs.Occurs.{has_bags};
ghost use Rattle.hs_pure.specs.Rename.{sums};
ghost use Rattle.hs_plain.specs.Variables.{inserted, with_terms, with_sums, free_variables};

use hs_pure::{Lin, NoMemory, Pure, Var};
use std::alloc::Global;

// Puts `v` at its place among variables by rising number, unless it is there.
fn insert(variables: &mut Vec<Var>, v: Var) -> Result<(), NoMemory>
    ensures { OnOk result (variables.new.items ≡ inserted v variables.old.items) }
{
    let mut i = 0;
    while i < variables.len() && variables[i].number < v.number {
        i += 1;
    }
    if i < variables.len() && variables[i] == v {
        return Ok(());
    }
    variables.insert(i, v)?;
    Ok(())
}

fn add_sum(variables: &mut Vec<Var>, a: &Lin) -> Result<(), NoMemory>
    ensures { OnOk result (variables.new.items ≡ with_terms a.now.terms variables.old.items) }
{
    for t in a.terms.as_slice() {
        insert(variables, t.0)?;
    }
    Ok(())
}

fn add_sums(variables: &mut Vec<Var>, a: &Lin, b: &Lin) -> Result<(), NoMemory>
    ensures { OnOk result (variables.new.items ≡ with_terms b.now.terms (with_terms a.now.terms variables.old.items)) }
{
    add_sum(variables, a)?;
    add_sum(variables, b)
}

// The variables of each sum, by rising number.
#[cycle(adding)]
fn add_all(variables: &mut Vec<Var>, p: &Pure) -> Result<(), NoMemory>
    requires { has_bags p.now ≡ false }
    ensures { OnOk result (variables.new.items ≡ with_sums (sums p.now) variables.old.items) }
{
    match p {
        Pure::Eq(a, b) => add_sums(variables, a, b),
        Pure::Lt(a, b) => add_sums(variables, a, b),
        Pure::Le(a, b) => add_sums(variables, a, b),
        Pure::Divides(_, a) => add_sum(variables, a),
        Pure::Not(p) => add_all(variables, p.get()),
        Pure::And(ps) => add_all_of(variables, ps.as_slice()),
        Pure::Or(ps) => add_all_of(variables, ps.as_slice()),
        Pure::Exists(_, p) => add_all(variables, p.get()),
        Pure::Forall(_, p) => add_all(variables, p.get()),
        Pure::BagEq(_, _) | Pure::Subset(_, _) | Pure::Member(_, _) | Pure::AllOf(_, _, _) =>
            unreachable!(),
    }
}

#[cycle(adding)]
fn add_all_of(variables: &mut Vec<Var>, ps: &[Pure]) -> Result<(), NoMemory>
    requires { All (λ p. has_bags p ≡ false) ps.now }
    ensures { OnOk result (variables.new.items ≡ with_sums (flat_map (λ as'. as') (map sums ps.now)) variables.old.items) }
{
    for p in ps {
        add_all(variables, p)?;
    }
    Ok(())
}

// The variables that occur free, by rising number.
pub(crate) fn free_variables(alloc: Global, p: &Pure) -> Result<Vec<Var>, NoMemory>
    requires { has_bags p.now ≡ false }
    ensures { IfOk result (λ vs. vs.items ≡ free_variables (assertion_of p.now)) }
{
    let mut all = Vec::new(alloc);
    add_all(&mut all, p)?;
    let mut free = Vec::new(alloc);
    for v in &all {
        if p.has(*v) {
            free.push(*v)?;
        }
    }
    Ok(free)
}
