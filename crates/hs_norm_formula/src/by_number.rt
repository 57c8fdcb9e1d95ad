//! Formulas whose variables are written by their numbers.

ghost use Rattle.std.specs.Prelude.{◌≡◌, ◌-◌, ◌^◌, min, IfOk, map, false};
ghost use Rattle.hs_numbering.specs.Numbering.{Builds};
ghost use Rattle.hs_numbering.specs.Least as first;
ghost use Rattle.hs_norm_formula.specs.Formula.{formula};
ghost use Rattle.hs_norm_formula.specs.Numbered as spec;
ghost use Rattle.hs_norm_formula.specs.Numbered.{Gives};

use crate::formula::normal_formula;
use crate::table::{Entry, places};
use hs_heap::{Defs, Formula, NodeDef, Of, PredDef};
use hs_numbering::{Fault, Limit, Numbering, Problem, Reading, least};
use hs_pure::{NoMemory, Var};
use hs_text::Text;
use hs_tree::FormulaTree;
use sqlite_items::Items;
use std::alloc::Global;

/// Why there is no normal form. A number is the offset of the token where the fault is.
#[derive(Debug, Drop)]
pub enum NormError {
    /// Nothing declares the name where it is used.
    Unknown(Text),
    /// The name is declared a second time.
    Twice(Text),
    /// A bag where a number belongs, or a number where a bag belongs.
    Kind(u32),
    /// The number of arguments is wrong.
    Arity(u32),
    /// This thing is one too many.
    TooMany(u32, Limit),
    /// What stands there has no such form.
    Shape(u32),
    /// There was no memory.
    Memory,
}

impl From<NoMemory> for NormError {
    ghost use Rattle.std.specs.Prelude.{◌≡◌};
    ghost use Rattle.hs_norm_formula.specs.declared.by_number.NormError.TheVariants.{Memory};

    ghost from_gives = { λ _ e. e ≡ Memory };

    fn from(_: NoMemory) -> NormError {
        NormError::Memory
    }
}

/// The error of a fault.
pub fn error_of(alloc: Global, fault: &Fault) -> Result<NormError, NoMemory>
    ensures { IfOk result (λ e. e ≡ spec.error_of fault.now) }
{
    match &fault.problem {
        Problem::Unknown(name) => Ok(NormError::Unknown(name.copy(alloc)?)),
        Problem::Twice(name) => Ok(NormError::Twice(name.copy(alloc)?)),
        Problem::Kind => Ok(NormError::Kind(fault.at)),
        Problem::Arity => Ok(NormError::Arity(fault.at)),
        Problem::TooMany(limit) => Ok(NormError::TooMany(fault.at, *limit)),
        Problem::Shape => Ok(NormError::Shape(fault.at)),
    }
}

fn field_kinds(alloc: Global, fields: &[(Text, Option<u32>)]) -> Result<Items<bool>, NoMemory>
    ensures { IfOk result (λ kinds. kinds ≡ map (λ f. false) fields.now) }
{
    let mut kinds = Items::new(alloc);
    for _field in fields {
        kinds.push(false)?;
    }
    Ok(kinds)
}

fn param_kinds(alloc: Global, params: &[Var]) -> Result<Items<bool>, NoMemory>
    ensures { IfOk result (λ kinds. kinds ≡ map (λ v. v.bag) params.now) }
{
    let mut kinds = Items::new(alloc);
    for param in params {
        kinds.push(param.bag)?;
    }
    Ok(kinds)
}

fn node_entry(alloc: Global, number: u32, node: &NodeDef) -> Result<Entry, NoMemory>
    ensures { IfOk result (λ e. e ≡ spec.node_entry number node.now) }
{
    Ok(Entry {
        name: node.name.copy(alloc)?,
        of: Of::Node(number),
        kinds: field_kinds(alloc, node.fields.as_slice())?,
    })
}

fn pred_entry(alloc: Global, number: u32, pred: &PredDef) -> Result<Entry, NoMemory>
    ensures { IfOk result (λ e. e ≡ spec.pred_entry number pred.now) }
{
    Ok(Entry {
        name: pred.name.copy(alloc)?,
        of: Of::Pred(number),
        kinds: param_kinds(alloc, pred.params.as_slice())?,
    })
}

// How many of these have a number of 32 bits.
fn nameable(count: usize) -> usize
    ensures { result ≡ min count (2 ^ 32 - 1) }
{
    if count < u32::MAX as usize {
        count
    } else {
        u32::MAX as usize
    }
}

fn node_entries(alloc: Global, nodes: &[NodeDef]) -> Result<Items<Entry>, NoMemory>
    ensures { IfOk result (λ all. all ≡ spec.counted spec.node_entry (spec.nameable nodes.now)) }
{
    let count = nameable(nodes.len());
    let mut all = Items::new(alloc);
    for i in 0..count {
        all.push(node_entry(alloc, (i + 1) as u32, &nodes[i])?)?;
    }
    Ok(all)
}

fn pred_entries(alloc: Global, preds: &[PredDef]) -> Result<Items<Entry>, NoMemory>
    ensures { IfOk result (λ all. all ≡ spec.counted spec.pred_entry (spec.nameable preds.now)) }
{
    let count = nameable(preds.len());
    let mut all = Items::new(alloc);
    for i in 0..count {
        all.push(pred_entry(alloc, (i + 1) as u32, &preds[i])?)?;
    }
    Ok(all)
}

fn entries(alloc: Global, defs: &Defs) -> Result<Items<Entry>, NoMemory>
    ensures { IfOk result (λ all. all ≡ spec.entries_of defs.now) }
{
    let mut all = node_entries(alloc, defs.nodes.as_slice())?;
    all.append(pred_entries(alloc, defs.preds.as_slice())?)?;
    Ok(all)
}

// The normal form over these definitions, whatever faults are met.
fn built(
    alloc: Global,
    defs: &Defs,
    n: &mut Numbering,
    tree: &FormulaTree,
) -> Result<Formula, NoMemory>
    ensures { Builds (formula (spec.entries_of defs.now) tree.now n.old) result n.new }
{
    let entries = entries(alloc, defs)?;
    let places = places(alloc, entries.as_slice())?;
    normal_formula(alloc, n, &places, entries.as_slice(), tree)
}

// What was built, or the error of the first fault.
fn first_fault(alloc: Global, formula: Formula, faults: &[Fault]) -> Result<Formula, NormError>
    ensures { Gives (spec.outcome (first.least faults.now) formula) result }
{
    match least(faults) {
        Some(fault) => Err(error_of(alloc, fault)?),
        None => Ok(formula),
    }
}

/// The formula of a tree whose variables are written `vK`, or `VK` for a bag, with K from 1 to 2^32 - 1. Its
/// arguments are variables. `TooMany` never comes. `Twice` comes only for a binder inside a binder of the
/// same number. `Shape` comes also for an argument that is no variable and for a sum of which a coefficient
/// or the constant, added up from the left, leaves the range from -2^126 to 2^126.
pub fn numbered(alloc: Global, defs: &Defs, tree: &FormulaTree) -> Result<Formula, NormError>
    ensures exact { Gives (spec.numbered defs.now tree.now) result }
{
    let mut n = Numbering::new(alloc, Reading::Numbered);
    let formula = built(alloc, defs, &mut n, tree)?;
    first_fault(alloc, formula, n.faults.as_slice())
}
