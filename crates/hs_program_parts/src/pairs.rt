//! Pairs by which variables are renamed.

ghost use Rattle.std.specs.Prelude.{◌≡◌, ◌+◌, ◌<◌, ◌^◌, ◌++◌, ◌||◌, map, length, IfOk, OnOk};
ghost use Rattle.hs_pure.specs.Rename.{renaming};
ghost use Rattle.hs_heap.specs.Meaning.{is_in};
ghost use Rattle.hs_heap.specs.Variables.{occurs_in_formula};
ghost use Rattle.hs_core.specs.Sound.{param_vars, reserved_vars};
ghost use Rattle.hs_program_rules.specs.Parts.{is_of_pair, is_other, after_call};
ghost use Rattle.hs_program_parts.specs.Pairs.{is_between, paired, both_with, others_below, call_pairs, return_pairs, slots_below, fresh_pairs};

use crate::nodes::new_vars;
use crate::occurring::{is_listed, occurs_in_formula};
use crate::slots::{variable, variables};
use hs_core::{Method, Pair};
use hs_pure::{NoMemory, Var};
use sqlite_items::Items;
use std::alloc::Global;

// What the pairs put in the place of `v`.
pub fn put_name(pairs: &[(Var, Var)], v: Var) -> Var
    ensures { result ≡ renaming pairs.now v }
{
    for pair in pairs {
        if pair.0 == v {
            return pair.1;
        }
    }
    v
}

pub fn put_names(alloc: Global, pairs: &[(Var, Var)], vs: &[Var]) -> Result<Items<Var>, NoMemory>
    ensures { IfOk result (λ all. all ≡ map (renaming pairs.now) vs.now) }
{
    let mut all = Items::new(alloc);
    for v in vs {
        all.push(put_name(pairs, *v))?;
    }
    Ok(all)
}

fn push_paired(pairs: &mut Items<(Var, Var)>, ws: &[Var], vs: &[Var]) -> Result<(), NoMemory>
    ensures { OnOk result (pairs.new ≡ pairs.old ++ paired ws.now vs.now) }
{
    match ws {
        [] => Ok(()),
        [w, ws @ ..] => match vs {
            [] => Ok(()),
            [v, vs @ ..] => {
                pairs.push((*w, *v))?;
                push_paired(pairs, ws, vs)
            }
        },
    }
}

// Whether it is a number variable of a number from `low` to `high`.
fn is_between(low: u64, high: u64, v: Var) -> bool
    ensures { result ≡ is_between low high v }
{
    !v.bag && low <= u64::from(v.number) && u64::from(v.number) <= high
}

fn is_param(m: &Method, v: Var) -> bool
    ensures { result ≡ is_in v (param_vars m.now) }
{
    is_between(1, u64::from(m.params), v)
}

fn is_reserved(m: &Method, v: Var) -> bool
    ensures { result ≡ is_in v (reserved_vars m.now) }
{
    let params = u64::from(m.params);
    let refs = m.refs.as_slice().len() as u64;
    is_between(params + 1, params + refs + 1, v)
}

fn is_of_pair(m: &Method, p: &Pair, v: Var) -> bool
    ensures { result ≡ is_of_pair m.now p.now v }
{
    !is_param(m, v) && (is_reserved(m, v) || is_in_pair(p, v))
}

fn is_in_pair(p: &Pair, v: Var) -> bool
    ensures { result ≡ (is_in v p.now.logic || (occurs_in_formula v p.now.pre || occurs_in_formula v p.now.post)) }
{
    is_listed(p.logic.as_slice(), v)
        || occurs_in_formula(&p.pre, v)
        || occurs_in_formula(&p.post, v)
}

// Whether a variable of the number belongs to the pair and is no parameter.
fn is_other(m: &Method, p: &Pair, number: u32) -> bool
    ensures { result ≡ is_other m.now p.now number }
{
    is_of_pair(m, p, Var { number, bag: false }) || is_of_pair(m, p, Var { number, bag: true })
}

// The variables of both kinds of a number get another number.
fn push_both(pairs: &mut Items<(Var, Var)>, number: u32, next: u32) -> Result<(), NoMemory>
    ensures { OnOk result (pairs.new ≡ pairs.old ++ both_with number next) }
{
    pairs.push((
        Var { number, bag: false },
        Var {
            number: next,
            bag: false,
        },
    ))?;
    pairs.push((
        Var { number, bag: true },
        Var {
            number: next,
            bag: true,
        },
    ))?;
    Ok(())
}

// Gives the numbers from `fresh` on to the pair's variables beside the parameters.
fn push_others(
    pairs: &mut Items<(Var, Var)>,
    m: &Method,
    p: &Pair,
    fresh: u32,
) -> Result<u32, NoMemory>
    requires { fresh + p.now.next < 2 ^ 32 }
    ensures pairs { OnOk result (pairs.new ≡ pairs.old ++ others_below (is_other m.now p.now) fresh p.now.next) }
    ensures next { IfOk result (λ n. n ≡ after_call m.now p.now fresh) }
{
    let mut next = fresh;
    for number in 0..p.next {
        if is_other(m, p, number) {
            push_both(pairs, number, next)?;
            next += 1;
        }
    }
    Ok(next)
}

// The pairs of a call, and the number after the last one taken.
pub fn call_pairs(
    alloc: Global,
    m: &Method,
    p: &Pair,
    args: &[Var],
    fresh: u32,
) -> Result<(Items<(Var, Var)>, u32), NoMemory>
    requires { fresh + p.now.next < 2 ^ 32 }
    ensures pairs { IfOk result (λ r. r.0 ≡ call_pairs m.now p.now args.now fresh) }
    ensures next { IfOk result (λ r. r.1 ≡ after_call m.now p.now fresh) }
{
    let params = new_vars(alloc, 1, m.params)?;
    let mut pairs = Items::new(alloc);
    push_paired(&mut pairs, params.as_slice(), args)?;
    let next = push_others(&mut pairs, m, p, fresh)?;
    Ok((pairs, next))
}

// The pairs of a return.
pub fn return_pairs(
    alloc: Global,
    m: &Method,
    from: Option<u32>,
    held: &[Option<Var>],
) -> Result<Items<(Var, Var)>, NoMemory>
    requires { m.now.params + length m.now.refs < 2 ^ 31 }
    ensures { IfOk result (λ ps. ps ≡ return_pairs m.now from held.now) }
{
    let mut pairs = Items::new(alloc);
    if let Some(from) = from {
        let result = Var {
            number: m.params + 1,
            bag: false,
        };
        pairs.push((result, variable(held, from)))?;
    }
    let refs = m.refs.as_slice();
    let lasts = new_vars(alloc, m.params + 2, refs.len() as u32)?;
    let values = variables(alloc, held, refs)?;
    push_paired(&mut pairs, lasts.as_slice(), values.as_slice())?;
    Ok(pairs)
}

// Each slot with its variable.
pub fn slot_pairs(alloc: Global, held: &[Option<Var>]) -> Result<Items<(Var, Var)>, NoMemory>
    requires { length held.now < 2 ^ 32 }
    ensures { IfOk result (λ ps. ps ≡ slots_below held.now (length held.now)) }
{
    let mut pairs = Items::new(alloc);
    for i in 0..held.len() as u32 {
        let slot = Var {
            number: i + 1,
            bag: false,
        };
        pairs.push((slot, variable(held, i + 1)))?;
    }
    Ok(pairs)
}

// Each variable with a number of its own.
pub fn fresh_pairs(alloc: Global, vars: &[Var], next: u32) -> Result<Items<(Var, Var)>, NoMemory>
    requires { next + length vars.now < 2 ^ 32 }
    ensures { IfOk result (λ pairs. pairs ≡ fresh_pairs vars.now next) }
{
    let mut pairs = Items::new(alloc);
    let mut number = next;
    for v in vars {
        pairs.push((*v, Var { number, bag: v.bag }))?;
        number += 1;
    }
    Ok(pairs)
}
