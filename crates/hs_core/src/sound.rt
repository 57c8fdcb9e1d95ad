ghost use Rattle.std.specs.Prelude.{◌≡◌, ◌↔◌, IsTrue};
ghost use Rattle.std.specs.List.{list_all};
ghost use Rattle.hs_core.specs.Sound.{IsSoundProgram};
ghost use Rattle.hs_core.specs.Tests.{in_scope, is_given, last_reserved, are_rising, code_fits, are_new, head_fits, variant_fits, parts_fit, pair_fits, method_fits, program_fits};

use crate::formulas::{are_distinct, formula_fits};
use crate::instrs::instr_fits;
use crate::program::{Method, Pair, Program};
use crate::pures::{number_fits, sum_fits};
use crate::scope::{Scope, is_slot};
use hs_heap::Defs;
use hs_pure::{Lin, Var};

const MAX_NEXT: u32 = 1 << 16;

impl Program {
    /// Whether the program is sound over the definitions: numbers name what is there, calls and returns fit their
    /// methods, jumps go forward, expressions are of slots and light, and pairs are of the normal form. It takes no
    /// memory.
    pub fn sound(&self, defs: &Defs) -> bool
        ensures exact { IsTrue result ↔ IsSoundProgram defs.now self.now }
    {
        program_fits(self, defs)
    }
}

fn program_fits(program: &Program, defs: &Defs) -> bool
    ensures { result ≡ program_fits defs.now program.now }
{
    program
        .methods
        .as_slice()
        .iter()
        .all(|m| method_fits(m, program, defs))
}

fn method_fits(m: &Method, program: &Program, defs: &Defs) -> bool
    ensures { result ≡ method_fits defs.now program.now m.now }
{
    m.params <= m.slots
        && are_rising(m.refs.as_slice(), m.params)
        && 0 < m.code.len()
        && code_fits(m, program, defs)
        && pairs_fit(m.pairs.as_slice(), m, defs)
}

fn are_rising(ks: &[u32], last: u32) -> bool
    ensures { result ≡ are_rising last 0 ks.now }
{
    let mut low = 0;
    for k in ks {
        if *k <= low || last < *k {
            return false;
        }
        low = *k;
    }
    true
}

fn code_fits(m: &Method, program: &Program, defs: &Defs) -> bool
    ensures { result ≡ code_fits defs.now program.now m.now 0 m.now.code }
{
    for (i, instr) in m.code.as_slice().iter().enumerate() {
        if !instr_fits(defs, program, m, i, instr) {
            return false;
        }
    }
    true
}

fn pairs_fit(pairs: &[Pair], m: &Method, defs: &Defs) -> bool
    ensures { result ≡ list_all (pair_fits defs.now m.now) pairs.now }
{
    pairs.iter().all(|p| pair_fits(p, m, defs))
}

// Whether a pair of the method is of the normal form.
fn pair_fits(p: &Pair, m: &Method, defs: &Defs) -> bool
    ensures { result ≡ pair_fits defs.now m.now p.now }
{
    let last = last_reserved(m);
    head_fits(p, last) && given_fit(p, u64::from(m.params), last, defs)
}

// Whether the formulas and the variant are right, where the number variables up to `params` and `logic` are given
// before, and those up to `last` and `logic` after.
fn given_fit(p: &Pair, params: u64, last: u64, defs: &Defs) -> bool
    ensures { result ≡ parts_fit defs.now p.now (is_given params p.now.logic) (is_given last p.now.logic) }
{
    let logic = p.logic.as_slice();
    let params = Scope::UpTo(params);
    let reserved = Scope::UpTo(last);
    let before = Scope::WithAll(logic, &params);
    let after = Scope::WithAll(logic, &reserved);
    parts_fit(p, defs, &before, &after)
}

// The last number that belongs to a parameter, the result or the last value of a reference parameter.
fn last_reserved(m: &Method) -> u64
    ensures { result ≡ last_reserved m.now }
{
    u64::from(m.params) + m.refs.as_slice().len() as u64 + 1
}

// Whether the numbers that are given are different and below `next`, which is at most 2^16.
fn head_fits(p: &Pair, last: u64) -> bool
    ensures { result ≡ head_fits last p.now }
{
    let logic = p.logic.as_slice();
    p.next <= MAX_NEXT
        && last < u64::from(p.next)
        && are_distinct(logic)
        && are_new(logic, p.next, last)
}

fn are_new(logic: &[Var], next: u32, last: u64) -> bool
    ensures { result ≡ are_new next last logic.now }
{
    logic
        .iter()
        .all(|v| number_fits(*v, next) && !is_slot(last, *v))
}

// Whether the formulas and the variant are right, before and after with their own given variables.
fn parts_fit(p: &Pair, defs: &Defs, before: &Scope, after: &Scope) -> bool
    ensures { result ≡ parts_fit defs.now p.now (in_scope before.now) (in_scope after.now) }
{
    formula_fits(&p.pre, defs, before, p.next)
        && formula_fits(&p.pre, defs, after, p.next)
        && formula_fits(&p.post, defs, after, p.next)
        && variant_fits(&p.variant, before)
}

fn variant_fits(variant: &Option<Lin>, scope: &Scope) -> bool
    ensures { result ≡ variant_fits variant.now (in_scope scope.now) }
{
    match variant {
        Some(term) => sum_fits(term, scope),
        None => true,
    }
}
