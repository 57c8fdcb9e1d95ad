//! What a call makes of a pair: parameters become the arguments, its other variables get new numbers.

ghost use Rattle.std.specs.Prelude.{◌≡◌, ◌≤◌, ◌^◌, map, length, IfOk};
ghost use Rattle.hs_heap.specs.Renamed.{renamed_formula};
ghost use Rattle.hs_program_rules.specs.Parts.{call_renaming, after_call, result_var, last_vars};
ghost use Rattle.hs_program_parts.specs.Pairs.{CanBeCalled};

use crate::nodes::new_vars;
use crate::pairs::{call_pairs, put_name, put_names};
use hs_core::{Method, Pair};
use hs_heap::Formula;
use hs_pure::{NoMemory, Var};
use sqlite_items::Items;
use std::alloc::Global;

/// What a call asks: the renamed `logic` and precondition, and the number after the last one taken.
#[derive(Drop)]
pub struct CallAsks {
    pub opens: Items<Var>,
    pub pre: Formula,
    pub next: u32,
}

/// What a call gives: the variables of the result and of the reference parameters' last values, and the postcondition.
#[derive(Drop)]
pub struct CallGives {
    pub result: Var,
    pub lasts: Items<Var>,
    pub post: Formula,
}

/// What a call of the method by the pair asks, with new numbers from `fresh` on.
pub fn call_asks(
    alloc: Global,
    m: &Method,
    p: &Pair,
    args: &[Var],
    fresh: u32,
) -> Result<CallAsks, NoMemory>
    requires able { CanBeCalled m.now p.now }
    requires arity { length args.now ≡ m.now.params }
    requires few { fresh ≤ 2 ^ 30 }
    ensures opens { IfOk result (λ c. c.opens ≡ map (call_renaming m.now p.now args.now fresh) p.now.logic) }
    ensures pre { IfOk result (λ c. c.pre ≡ renamed_formula (call_renaming m.now p.now args.now fresh) p.now.pre) }
    ensures next { IfOk result (λ c. c.next ≡ after_call m.now p.now fresh) }
{
    let (pairs, next) = call_pairs(alloc, m, p, args, fresh)?;
    let opens = put_names(alloc, pairs.as_slice(), p.logic.as_slice())?;
    let pre = p.pre.put_names(alloc, pairs.as_slice())?;
    Ok(CallAsks { opens, pre, next })
}

/// What a call of the method by the pair gives, with new numbers from `fresh` on.
pub fn call_gives(
    alloc: Global,
    m: &Method,
    p: &Pair,
    args: &[Var],
    fresh: u32,
) -> Result<CallGives, NoMemory>
    requires able { CanBeCalled m.now p.now }
    requires arity { length args.now ≡ m.now.params }
    requires few { fresh ≤ 2 ^ 30 }
    ensures result { IfOk result (λ c. c.result ≡ call_renaming m.now p.now args.now fresh (result_var m.now)) }
    ensures lasts { IfOk result (λ c. c.lasts ≡ map (call_renaming m.now p.now args.now fresh) (last_vars m.now)) }
    ensures post { IfOk result (λ c. c.post ≡ renamed_formula (call_renaming m.now p.now args.now fresh) p.now.post) }
{
    let (pairs, _) = call_pairs(alloc, m, p, args, fresh)?;
    let first = Var {
        number: m.params + 1,
        bag: false,
    };
    let result = put_name(pairs.as_slice(), first);
    let refs = m.refs.as_slice();
    let old = new_vars(alloc, m.params + 2, refs.len() as u32)?;
    let lasts = put_names(alloc, pairs.as_slice(), old.as_slice())?;
    let post = p.post.put_names(alloc, pairs.as_slice())?;
    Ok(CallGives {
        result,
        lasts,
        post,
    })
}
