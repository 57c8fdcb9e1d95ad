//! Answers and their texts.

ghost use Rattle.std.specs.Prelude.{◌≡◌, false};
ghost use Rattle.hs_pure.specs.Eval.{has_quantifiers};

use hs_heap::{Disjunct, HeapNode};
use hs_print::numbered_pure;
use hs_pure::{Bag, Lin, Pure, Valuation, Var, Wide};
use hs_tests_formulas::{NoRow, is_flat, is_light, keeps_apart};
use sqlite_items::{Boxed, Items};
use std::alloc::Global;

fn push_truth(out: &mut String, truth: Result<bool, Wide>) -> Result<(), NoRow> {
    match truth {
        Ok(true) => write!(out, "true")?,
        Ok(false) => write!(out, "false")?,
        Err(Wide) => write!(out, "wide")?,
    }
    Ok(())
}

pub fn push_eval(out: &mut String, f: &Pure, v: &Valuation) -> Result<(), NoRow> {
    if is_flat(f) {
        push_truth(out, f.eval(v))
    } else {
        Err(NoRow)
    }
}

const X: Var = Var {
    number: 1,
    bag: false,
};

// `divides(d, v1)`
fn divides(alloc: Global, d: i128) -> Result<Box<Pure>, NoRow> {
    let x = Lin {
        terms: Items::from_slice(alloc, &[(X, 1)])?,
        constant: 0,
    };
    Ok(Box::new(alloc, Pure::Divides(d, x))?)
}

pub fn push_divides(alloc: Global, out: &mut String, d: i128, n: i128) -> Result<(), NoRow> {
    let v = Valuation {
        numbers: Items::from_slice(alloc, &[(X, n)])?,
        bags: Items::new(alloc),
    };
    push_eval(out, &*divides(alloc, d)?, &v)
}

// The one conjunct, renamed.
fn renamed(alloc: Global, case: &Disjunct, map: &[(Var, Var)]) -> Result<Box<Pure>, NoRow> {
    let [p] = case.pure.as_slice() else {
        return Err(NoRow);
    };
    if !keeps_apart(p, map) || !is_light(alloc, case)? {
        return Err(NoRow);
    }
    Ok(Box::new(alloc, p.rename(alloc, map)?)?)
}

pub fn push_renamed(
    alloc: Global,
    out: &mut String,
    case: &Disjunct,
    map: &[(Var, Var)],
) -> Result<(), NoRow> {
    let text = numbered_pure(alloc, &*renamed(alloc, case, map)?)?;
    write!(out, "{text}")?;
    Ok(())
}

pub fn push_plain(out: &mut String, f: &Pure) -> Result<(), NoRow> {
    if f.bags_plain() {
        write!(out, "yes")?;
    } else {
        write!(out, "no")?;
    }
    Ok(())
}

const U: Var = Var {
    number: 5,
    bag: false,
};

const S: Var = Var {
    number: 4,
    bag: true,
};

// What binds v5 over the formula.
fn bound(word: &str, body: Boxed<Pure>) -> Result<Pure, NoRow> {
    match word {
        "exists" => Ok(Pure::Exists(U, body)),
        "forall" => Ok(Pure::Forall(U, body)),
        "all" => Ok(Pure::AllOf(U, Bag::Name(S), body)),
        _ => Err(NoRow),
    }
}

pub fn push_plain_inside(
    alloc: Global,
    out: &mut String,
    word: &str,
    f: &Pure,
) -> Result<(), NoRow> {
    let body = Boxed::new(alloc, f.copy(alloc)?)?;
    let whole = Box::new(alloc, bound(word, body)?)?;
    push_plain(out, &whole)
}

// The copy of a node.
pub fn push_copy(alloc: Global, out: &mut String, node: &HeapNode) -> Result<(), NoRow> {
    let copy = node.copy(alloc)?;
    let of = copy.of;
    write!(out, "{of}")?;
    for value in copy.values.as_slice() {
        write!(out, " {value}")?;
    }
    Ok(())
}
