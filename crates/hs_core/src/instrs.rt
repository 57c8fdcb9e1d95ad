ghost use Rattle.std.specs.Prelude.{◌≡◌};
ghost use Rattle.std.specs.List.{list_all};
ghost use Rattle.std.specs.Option.{option_copied};
ghost use Rattle.hs_heap.specs.Sound.{node_at};
ghost use Rattle.hs_heap.specs.Tests.{has_fields};
ghost use Rattle.hs_core.specs.Machine.{numbered};
ghost use Rattle.hs_core.specs.Tests.{is_up_to, goes_on, is_forward, has_field, takes_fit, gives_fit, are_not, are_apart, callee_fits, call_fits, instr_fits};

use crate::conditions::{condition_fits, term_fits};
use crate::instr::Instr;
use crate::program::{Method, Program};
use hs_heap::{Defs, NodeDef};

// Whether the instruction at the point i of a method is right.
pub fn instr_fits(defs: &Defs, program: &Program, m: &Method, i: usize, instr: &Instr) -> bool
    ensures { result ≡ instr_fits defs.now program.now m.now i instr.now }
{
    match instr {
        Instr::Assign(to, term) => is_up_to(m.slots, *to)
            && term_fits(term, u64::from(m.slots))
            && goes_on(m, i),
        Instr::New(to, kind, args) => is_up_to(m.slots, *to)
            && are_slots(m, args.as_slice())
            && has_fields(node(defs, *kind), args.len())
            && goes_on(m, i),
        Instr::Get(to, at, kind, field) => is_up_to(m.slots, *to)
            && is_up_to(m.slots, *at)
            && has_field(node(defs, *kind), *field)
            && goes_on(m, i),
        Instr::Set(at, kind, field, from) => is_up_to(m.slots, *at)
            && is_up_to(m.slots, *from)
            && has_field(node(defs, *kind), *field)
            && goes_on(m, i),
        Instr::Branch(condition, other) => condition_fits(condition, u64::from(m.slots))
            && goes_on(m, i)
            && is_forward(m, i, *other),
        Instr::Jump(target) => is_forward(m, i, *target),
        Instr::Call(to, method, args) => call_fits(program, m, *to, *method, args.as_slice())
            && goes_on(m, i),
        Instr::Return(from) => gives_fit(m, *from),
    }
}

// Whether k is a number from 1 to n.
fn is_up_to(n: u32, k: u32) -> bool
    ensures { result ≡ is_up_to n k }
{
    1 <= k && k <= n
}

fn are_slots(m: &Method, ks: &[u32]) -> bool
    ensures { result ≡ list_all (is_up_to m.now.slots) ks.now }
{
    ks.iter().all(|k| is_up_to(m.slots, *k))
}

fn goes_on(m: &Method, i: usize) -> bool
    ensures { result ≡ goes_on m.now i }
{
    let end = m.code.len();
    i < end && 1 < end - i
}

fn is_forward(m: &Method, i: usize, target: u32) -> bool
    ensures { result ≡ is_forward m.now i target }
{
    i < target as usize && (target as usize) < m.code.len()
}

// The data type of a number from 1.
fn node(defs: &Defs, n: u32) -> Option<&NodeDef>
    ensures { option_copied result ≡ node_at defs.now n }
{
    if n == 0 {
        return None;
    }
    defs.nodes.as_slice().get(n as usize - 1)
}

fn has_fields(node: Option<&NodeDef>, count: usize) -> bool
    ensures { result ≡ has_fields (option_copied node.entry) count }
{
    match node {
        Some(node) => node.fields.len() == count,
        None => false,
    }
}

fn has_field(node: Option<&NodeDef>, field: u32) -> bool
    ensures { result ≡ has_field (option_copied node.entry) field }
{
    match node {
        Some(node) => 1 <= field && field as usize <= node.fields.len(),
        None => false,
    }
}

fn gives_fit(m: &Method, from: Option<u32>) -> bool
    ensures { result ≡ gives_fit m.now.slots m.now.result from }
{
    match from {
        Some(from) => is_up_to(m.slots, from) && m.result,
        None => !m.result,
    }
}

fn call_fits(program: &Program, m: &Method, to: Option<u32>, method: u32, args: &[u32]) -> bool
    ensures { result ≡ call_fits program.now m.now to method args.now }
{
    let methods = program.methods.as_slice();
    if method == 0 || methods.len() < method as usize {
        return false;
    }
    callee_fits(m, &methods[method as usize - 1], to, args)
}

fn callee_fits(m: &Method, callee: &Method, to: Option<u32>, args: &[u32]) -> bool
    ensures { result ≡ callee_fits m.now callee.now to args.now }
{
    are_slots(m, args)
        && args.len() == callee.params as usize
        && takes_fit(m.slots, callee.result, to)
        && are_apart(args, callee.refs.as_slice())
}

fn takes_fit(slots: u32, gives: bool, to: Option<u32>) -> bool
    ensures { result ≡ takes_fit slots gives to }
{
    match to {
        Some(to) => is_up_to(slots, to) && gives,
        None => true,
    }
}

// Whether the arguments of the reference parameters are different slots.
fn are_apart(args: &[u32], refs: &[u32]) -> bool
    ensures { result ≡ are_apart args.now refs.now }
{
    match refs {
        [] => true,
        [r, rest @ ..] => are_not(args, arg(args, *r), rest) && are_apart(args, rest),
    }
}

fn are_not(args: &[u32], slot: u32, refs: &[u32]) -> bool
    ensures { result ≡ are_not args.now slot refs.now }
{
    refs.iter().all(|r| arg(args, *r) != slot)
}

// The argument of a number from 1.
fn arg(args: &[u32], n: u32) -> u32
    ensures { result ≡ numbered args.now n 0 }
{
    if n == 0 {
        return 0;
    }
    match args.get(n as usize - 1) {
        Some(slot) => *slot,
        None => 0,
    }
}
