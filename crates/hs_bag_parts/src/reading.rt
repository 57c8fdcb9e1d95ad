//! What a formula has: its element terms, bag variables, compound bags and denied literals.

ghost use Rattle.std.specs.Prelude.{◌≡◌, ◌+◌, ◌^◌, min, [], ◌∷◌, OnOk};
ghost use Rattle.hs_pure.specs.Assertion.{bag_term_of};
ghost use Rattle.hs_elimination.specs.Cases.{has_lin, join_distinct};
ghost use Rattle.hs_elimination.specs.Ordered.{term_sums};
ghost use Rattle.hs_reduction.specs.Layout.{add_name, bag_names, bag_compounds, if_denied};
ghost use Rattle.hs_bag_parts.specs.Reading.{terms_of, all_terms, names_of, all_names, compounds_of, all_compounds, denied_of, all_denied};

use crate::capped::capped;
use hs_cooper_forms::same_lin;
use hs_pure::{Bag, Lin, NoMemory, Pure, Var};
use sqlite_items::Items;
use std::alloc::Global;

// More than any count that serves.
const MANY: u64 = 1 << 31;

fn has(listed: &[Lin], a: &Lin) -> bool
    ensures { result ≡ has_lin a.now listed.now }
{
    for b in listed {
        if same_lin(a, b) {
            return true;
        }
    }
    false
}

// Adds a term, unless it is there.
fn add_term(alloc: Global, listed: &mut Items<Lin>, a: &Lin) -> Result<(), NoMemory>
    ensures { OnOk result (listed.new ≡ join_distinct listed.old (a.now ∷ [])) }
{
    if !has(listed.as_slice(), a) {
        listed.push(a.copy(alloc)?)?;
    }
    Ok(())
}

#[tactic(auto, using(crate::proofs::Together::join_more))]
fn add_two(alloc: Global, listed: &mut Items<Lin>, a: &Bag, b: &Bag) -> Result<(), NoMemory>
    ensures { OnOk result (listed.new ≡ join_distinct (join_distinct listed.old (term_sums (bag_term_of a.now))) (term_sums (bag_term_of b.now))) }
{
    add_bag_terms(alloc, listed, a)?;
    add_bag_terms(alloc, listed, b)
}

// Adds the terms of a bag that are new.
#[tactic(auto, using(crate::proofs::Together::join_more))]
fn add_bag_terms(alloc: Global, listed: &mut Items<Lin>, b: &Bag) -> Result<(), NoMemory>
    ensures { OnOk result (listed.new ≡ join_distinct listed.old (term_sums (bag_term_of b.now))) }
{
    match b {
        Bag::Empty => Ok(()),
        Bag::Name(_) => Ok(()),
        Bag::One(a) => add_term(alloc, listed, a),
        Bag::Union(a, b) => {
            add_bag_terms(alloc, listed, a.get())?;
            add_bag_terms(alloc, listed, b.get())
        }
        Bag::Inter(a, b) => {
            add_bag_terms(alloc, listed, a.get())?;
            add_bag_terms(alloc, listed, b.get())
        }
        Bag::Diff(a, b) => {
            add_bag_terms(alloc, listed, a.get())?;
            add_bag_terms(alloc, listed, b.get())
        }
    }
}

/// Adds the element terms of a formula that are new.
#[cycle(terms)]
#[tactic(auto, using(crate::proofs::Together::join_more))]
pub fn add_terms(alloc: Global, listed: &mut Items<Lin>, p: &Pure) -> Result<(), NoMemory>
    ensures { OnOk result (listed.new ≡ join_distinct listed.old (terms_of p.now)) }
{
    match p {
        Pure::BagEq(a, b) => add_two(alloc, listed, a, b),
        Pure::Subset(a, b) => add_two(alloc, listed, a, b),
        Pure::Member(a, b) => {
            add_term(alloc, listed, a)?;
            add_bag_terms(alloc, listed, b)
        }
        Pure::AllOf(_, b, _) => add_bag_terms(alloc, listed, b),
        Pure::Not(p) => add_terms(alloc, listed, p.get()),
        Pure::And(ps) => add_all_terms(alloc, listed, ps.as_slice()),
        Pure::Or(ps) => add_all_terms(alloc, listed, ps.as_slice()),
        Pure::Eq(_, _)
        | Pure::Lt(_, _)
        | Pure::Le(_, _)
        | Pure::Divides(_, _)
        | Pure::Exists(_, _)
        | Pure::Forall(_, _) => Ok(()),
    }
}

#[cycle(terms)]
fn add_all_terms(alloc: Global, listed: &mut Items<Lin>, ps: &[Pure]) -> Result<(), NoMemory>
    ensures { OnOk result (listed.new ≡ join_distinct listed.old (all_terms ps.now)) }
{
    for p in ps {
        add_terms(alloc, listed, p)?;
    }
    Ok(())
}

// Puts a bag variable at its place, unless it is there.
fn add_name(names: &mut Vec<Var>, v: Var) -> Result<(), NoMemory>
    ensures { OnOk result (names.new.items ≡ add_name v names.old.items) }
{
    let mut i = 0;
    while i < names.len() && names[i] != v && names[i].number <= v.number {
        i += 1;
    }
    if i < names.len() && names[i] == v {
        return Ok(());
    }
    names.insert(i, v)?;
    Ok(())
}

fn add_bag_names(names: &mut Vec<Var>, b: &Bag) -> Result<(), NoMemory>
    ensures { OnOk result (names.new.items ≡ bag_names (bag_term_of b.now) names.old.items) }
{
    match b {
        Bag::Empty => Ok(()),
        Bag::Name(v) => add_name(names, *v),
        Bag::One(_) => Ok(()),
        Bag::Union(a, b) => {
            add_bag_names(names, a.get())?;
            add_bag_names(names, b.get())
        }
        Bag::Inter(a, b) => {
            add_bag_names(names, a.get())?;
            add_bag_names(names, b.get())
        }
        Bag::Diff(a, b) => {
            add_bag_names(names, a.get())?;
            add_bag_names(names, b.get())
        }
    }
}

fn add_two_names(names: &mut Vec<Var>, a: &Bag, b: &Bag) -> Result<(), NoMemory>
    ensures { OnOk result (names.new.items ≡ bag_names (bag_term_of b.now) (bag_names (bag_term_of a.now) names.old.items)) }
{
    add_bag_names(names, a)?;
    add_bag_names(names, b)
}

/// Adds the bag variables of a formula, rising.
#[cycle(names)]
pub fn add_names(names: &mut Vec<Var>, p: &Pure) -> Result<(), NoMemory>
    ensures { OnOk result (names.new.items ≡ names_of p.now names.old.items) }
{
    match p {
        Pure::BagEq(a, b) => add_two_names(names, a, b),
        Pure::Subset(a, b) => add_two_names(names, a, b),
        Pure::Member(_, b) => add_bag_names(names, b),
        Pure::AllOf(_, b, _) => add_bag_names(names, b),
        Pure::Not(p) => add_names(names, p.get()),
        Pure::And(ps) => add_all_names(names, ps.as_slice()),
        Pure::Or(ps) => add_all_names(names, ps.as_slice()),
        Pure::Eq(_, _)
        | Pure::Lt(_, _)
        | Pure::Le(_, _)
        | Pure::Divides(_, _)
        | Pure::Exists(_, _)
        | Pure::Forall(_, _) => Ok(()),
    }
}

#[cycle(names)]
fn add_all_names(names: &mut Vec<Var>, ps: &[Pure]) -> Result<(), NoMemory>
    ensures { OnOk result (names.new.items ≡ all_names ps.now names.old.items) }
{
    for p in ps {
        add_names(names, p)?;
    }
    Ok(())
}

// How many compound bags a bag has, or 2^31 if there are more.
fn count_bag(b: &Bag) -> u64
    ensures { result ≡ min (bag_compounds (bag_term_of b.now)) (2 ^ 31) }
{
    match b {
        Bag::Empty => 0,
        Bag::Name(_) => 0,
        Bag::One(_) => 1,
        Bag::Union(a, b) => capped(count_bag(a.get()) + count_bag(b.get()) + 1, MANY),
        Bag::Inter(a, b) => capped(count_bag(a.get()) + count_bag(b.get()) + 1, MANY),
        Bag::Diff(a, b) => capped(count_bag(a.get()) + count_bag(b.get()) + 1, MANY),
    }
}

/// How many compound bags a formula has, or 2^31 if there are more.
#[cycle(compounds)]
pub fn count_compounds(p: &Pure) -> u64
    ensures { result ≡ min (compounds_of p.now) (2 ^ 31) }
{
    match p {
        Pure::BagEq(a, b) => capped(count_bag(a) + count_bag(b), MANY),
        Pure::Subset(a, b) => capped(count_bag(a) + count_bag(b), MANY),
        Pure::Member(_, b) => count_bag(b),
        Pure::AllOf(_, b, _) => count_bag(b),
        Pure::Not(p) => count_compounds(p.get()),
        Pure::And(ps) => count_all_compounds(ps.as_slice()),
        Pure::Or(ps) => count_all_compounds(ps.as_slice()),
        Pure::Eq(_, _)
        | Pure::Lt(_, _)
        | Pure::Le(_, _)
        | Pure::Divides(_, _)
        | Pure::Exists(_, _)
        | Pure::Forall(_, _) => 0,
    }
}

#[cycle(compounds)]
fn count_all_compounds(ps: &[Pure]) -> u64
    ensures { result ≡ min (all_compounds ps.now) (2 ^ 31) }
{
    let mut count = 0;
    for p in ps {
        count = capped(count + count_compounds(p), MANY);
    }
    count
}

fn if_denied(asserted: bool) -> u64
    ensures { result ≡ if_denied asserted }
{
    if asserted { 0 } else { 1 }
}

/// How many literals want a new element where the formula is asserted or denied, or 2^31 if there are more.
#[cycle(denied)]
pub fn count_denied(asserted: bool, p: &Pure) -> u64
    ensures { result ≡ min (denied_of asserted p.now) (2 ^ 31) }
{
    match p {
        Pure::BagEq(_, _) => if_denied(asserted),
        Pure::Subset(_, _) => if_denied(asserted),
        Pure::AllOf(_, _, _) => if_denied(asserted),
        Pure::Not(p) => count_denied(!asserted, p.get()),
        Pure::And(ps) => count_all_denied(asserted, ps.as_slice()),
        Pure::Or(ps) => count_all_denied(asserted, ps.as_slice()),
        Pure::Eq(_, _)
        | Pure::Lt(_, _)
        | Pure::Le(_, _)
        | Pure::Divides(_, _)
        | Pure::Member(_, _)
        | Pure::Exists(_, _)
        | Pure::Forall(_, _) => 0,
    }
}

#[cycle(denied)]
fn count_all_denied(asserted: bool, ps: &[Pure]) -> u64
    ensures { result ≡ min (all_denied asserted ps.now) (2 ^ 31) }
{
    let mut count = 0;
    for p in ps {
        count = capped(count + count_denied(asserted, p), MANY);
    }
    count
}
