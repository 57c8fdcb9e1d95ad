//! What definitions and formulas tell of themselves.

use crate::build::normal_of;
use hs_heap::Formula;
use hs_norm::Resolved;
use hs_pure::Var;
use std::alloc::Global;
use std::test::Fail;

// The disjunct has k = 1 bound and x = 2 free, and y = 3 is free in the other.
const SOURCE: &str = "data a { int v; }
pred p<> == exists k. self::a<k>;
entail exists k. x::a<k> or y = 0 |- emp;";

const BOUND: Var = Var {
    number: 1,
    bag: false,
};

const FREE: Var = Var {
    number: 2,
    bag: false,
};

const OTHER: Var = Var {
    number: 3,
    bag: false,
};

fn resolved(alloc: Global) -> Result<Resolved, Fail> {
    match normal_of(alloc, SOURCE)? {
        Ok(resolved) => Ok(resolved),
        Err(_) => Err(Fail::from("a normal form")),
    }
}

// The answers of the formula, and of its first disjunct, on the three variables.
fn formula_has(f: &Formula) -> (bool, bool, bool) {
    (f.has(BOUND), f.has(FREE), f.has(OTHER))
}

fn first_has(f: &Formula) -> (bool, bool, bool) {
    match f.cases.get(0) {
        None => (true, false, true),
        Some(case) => (case.has(BOUND), case.has(FREE), case.has(OTHER)),
    }
}

#[test]
fn what_a_disjunct_binds_is_not_free_in_it(rt: HostRuntime) -> Result<(), Fail> {
    let found = resolved(rt.alloc())?;
    let Some(e) = found.entailments.get(0) else {
        return Err(Fail::from("an entailment"));
    };
    assert_eq!(rt; formula_has(&e.left), (false, true, true));
    assert_eq!(rt; first_has(&e.left), (false, true, false));
    Ok(())
}

// Lets the last predicate have another least number that is not given.
fn set_next(found: &mut Resolved, next: u32) -> Result<(), Fail> {
    let Some(mut pred) = found.defs.preds.pop() else {
        return Err(Fail::from("a predicate"));
    };
    pred.next = next;
    found.defs.preds.push(pred)?;
    Ok(())
}

#[test]
fn definitions_are_sound_where_all_numbers_are_below_the_next(rt: HostRuntime) -> Result<(), Fail> {
    let mut found = resolved(rt.alloc())?;
    assert!(rt; found.defs.sound());
    set_next(&mut found, 2)?;
    assert!(rt; !found.defs.sound());
    Ok(())
}
