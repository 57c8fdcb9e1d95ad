//! The core program of a source.

ghost use Rattle.std.specs.Prelude.{◌≡◌, ◌⊎◌, [], ◌∷◌, ◌++◌, map, IfOk, IfErr, OnOk, Ok, Err};
ghost use Rattle.hs_lower_scope.specs.View.{shown};
ghost use Rattle.hs_lower_faults.specs.First as first;
ghost use Rattle.hs_lower_faults.specs.declared.error.LowerError.TheVariants as error;
ghost use Rattle.hs_lower.specs.Lowering as spec;

use crate::blocks::block;
use crate::made::Made;
use crate::values::plus;
use hs_core::{Instr, Method, Pair, Program};
use hs_lower_faults::{LowerError, earlier, method_fault};
use hs_lower_scope::Scope;
use hs_norm::{MethodTree, Resolved};
use hs_norm_item::PairTree;
use hs_pure::{Lin, NoMemory};
use sqlite_items::Items;
use std::alloc::Global;

// The most instructions of a method.
const MOST: usize = 4096;

// A method without result returns at its end, where that can be reached.
fn with_return(m: Made, gives: bool) -> Result<Made, NoMemory>
    ensures { IfOk result (λ r. r ≡ spec.with_return gives m) }
{
    let mut code = m.code;
    push_return(&mut code, m.ends && !gives)?;
    Ok(Made {
        code,
        slots: m.slots,
        ends: false,
    })
}

fn push_return(code: &mut Items<Instr>, returns: bool) -> Result<(), NoMemory>
    ensures { OnOk result (code.new ≡ code.old ++ spec.last_return returns) }
{
    if returns {
        code.push(Instr::Return(None))?;
    }
    Ok(())
}

fn code_of(alloc: Global, scope: &Scope, m: &MethodTree) -> Result<Made, NoMemory>
    ensures { IfOk result (λ made. made ≡ spec.code_of (shown scope.now) m.now) }
{
    let made = block(alloc, scope, 0, scope.count()?, &m.block)?;
    with_return(made, m.result.is_some())
}

fn variant_of(alloc: Global, variant: &Option<Lin>) -> Result<Option<Lin>, NoMemory>
    ensures { IfOk result (λ v. v ≡ variant.now) }
{
    match variant {
        None => Ok(None),
        Some(term) => Ok(Some(term.copy(alloc)?)),
    }
}

fn pair_of(alloc: Global, p: &PairTree) -> Result<Pair, NoMemory>
    ensures { IfOk result (λ q. q ≡ spec.pair_of p.now) }
{
    Ok(Pair {
        pre: p.pair_pre.copy(alloc)?,
        post: p.pair_post.copy(alloc)?,
        logic: Items::from_slice(alloc, p.logic.as_slice())?,
        next: p.next,
        variant: variant_of(alloc, &p.variant)?,
    })
}

fn pairs_of(alloc: Global, pairs: &[PairTree]) -> Result<Items<Pair>, NoMemory>
    ensures { IfOk result (λ all. all ≡ map spec.pair_of pairs.now) }
{
    let mut all = Items::new(alloc);
    for p in pairs {
        all.push(pair_of(alloc, p)?)?;
    }
    Ok(all)
}

fn method_by(alloc: Global, m: &MethodTree, made: Made) -> Result<Method, NoMemory>
    ensures { IfOk result (λ r. r ≡ spec.method_by m.now made) }
{
    Ok(Method {
        name: m.name.copy(alloc)?,
        params: plus(0, m.params.len())?,
        slots: made.slots,
        result: m.result.is_some(),
        pairs: pairs_of(alloc, m.pairs.as_slice())?,
        code: made.code,
        refs: Items::new(alloc),
    })
}

// Only a method without another fault may be too long.
fn or_long(fault: Option<LowerError>, at: u32, code: &Items<Instr>) -> Option<LowerError>
    ensures { result ≡ spec.or_long at code.now fault }
{
    match fault {
        Some(fault) => Some(fault),
        None => {
            if MOST < code.len() {
                Some(LowerError::TooLong(at))
            } else {
                None
            }
        }
    }
}

// A method, and its first fault.
#[derive(Drop)]
struct Lowered {
    method: Method,
    fault: Option<LowerError>,
}

fn method_of(alloc: Global, r: &Resolved, m: &MethodTree) -> Result<Lowered, NoMemory>
    ensures method { IfOk result (λ l. l.method ≡ spec.method_of r.now m.now) }
    ensures fault { IfOk result (λ l. l.fault ≡ spec.fault_of r.now m.now) }
{
    let scope = Scope::of(alloc, r, m)?;
    let made = code_of(alloc, &scope, m)?;
    let fault = or_long(method_fault(alloc, &scope, m)?, m.block.end, &made.code);
    let method = method_by(alloc, m, made)?;
    Ok(Lowered { method, fault })
}

fn or_earlier(found: Option<LowerError>, fault: Option<LowerError>) -> Option<LowerError>
    ensures { result ≡ first.or_earlier found fault }
{
    match fault {
        None => found,
        Some(fault) => earlier(found, fault),
    }
}

// All methods, and the first fault.
#[derive(Drop)]
struct All {
    methods: Items<Method>,
    fault: Option<LowerError>,
}

fn add(alloc: Global, all: &mut All, r: &Resolved, m: &MethodTree) -> Result<(), NoMemory>
    ensures methods { OnOk result (all.new.methods ≡ all.old.methods ++ spec.method_of r.now m.now ∷ []) }
    ensures fault { OnOk result (all.new.fault ≡ first.or_earlier all.old.fault (spec.fault_of r.now m.now)) }
{
    let one = method_of(alloc, r, m)?;
    all.fault = or_earlier(all.fault, one.fault);
    all.methods.push(one.method)?;
    Ok(())
}

fn all_of(alloc: Global, r: &Resolved) -> Result<All, NoMemory>
    ensures methods { IfOk result (λ a. a.methods ≡ (spec.program_of r.now).methods) }
    ensures fault { IfOk result (λ a. a.fault ≡ spec.first_fault r.now) }
{
    let mut all = All {
        methods: Items::new(alloc),
        fault: None,
    };
    for m in r.methods.as_slice() {
        add(alloc, &mut all, r, m)?;
    }
    Ok(all)
}

/// The core program of a source in normal form, or its first fault in the order of the text, and of several at one
/// place the one that `LowerError` names first. There is no memory for 2^32 or more slots, instructions of a method,
/// data types, methods or fields.
pub fn lower(alloc: Global, resolved: &Resolved) -> Result<Program, LowerError>
    ensures program { IfOk result (λ p. spec.lowered resolved.now ≡ Ok p) }
    ensures fault { IfErr result (λ e. (e ≡ error.Memory) ⊎ (spec.lowered resolved.now ≡ Err e)) }
{
    let all = all_of(alloc, resolved)?;
    match all.fault {
        Some(fault) => Err(fault),
        None => Ok(Program {
            methods: all.methods,
        }),
    }
}
