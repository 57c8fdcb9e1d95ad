//! Normal forms, printed by their numbers.

use hs_heap::{Defs, Formula, Lemma, NodeDef, PredDef};
use hs_norm::{Entailment, MethodTree, Names, PairTree, Resolved, VarType};
use hs_print::{formula, numbered_formula, numbered_pure, pure};
use hs_pure::{Lin, NoMemory, Pure, Var};
use hs_read::{BlockTree, StatementKind, StatementTree};
use sqlite_items::Items;
use std::alloc::Global;

fn push_vars(out: &mut String, vars: &[Var]) -> Result<(), NoMemory> {
    for v in vars {
        let number = v.number;
        let letter = if v.bag { 'V' } else { 'v' };
        write!(out, " {letter}{number}")?;
    }
    Ok(())
}

// The least number that is not given, and the source names of the others.
fn push_names(out: &mut String, next: u32, names: &Names) -> Result<(), NoMemory> {
    write!(out, "; next {next}, names")?;
    for name in names.list.as_slice() {
        match name {
            None => write!(out, " _")?,
            Some(name) => write!(out, " {name}")?,
        }
    }
    write!(out, "\n")?;
    Ok(())
}

fn push_formula(
    alloc: Global,
    out: &mut String,
    word: &str,
    f: &Formula,
    defs: &Defs,
) -> Result<(), NoMemory> {
    let text = numbered_formula(alloc, f, defs)?;
    write!(out, "    {word} {text}\n")?;
    Ok(())
}

fn push_node(out: &mut String, node: &NodeDef) -> Result<(), NoMemory> {
    let name = &node.name;
    write!(out, "  data {name}")?;
    for (field, to) in node.fields.as_slice() {
        match to {
            None => write!(out, " {field}:int")?,
            Some(number) => write!(out, " {field}:{number}")?,
        }
    }
    write!(out, "\n")?;
    Ok(())
}

fn push_pred(
    alloc: Global,
    out: &mut String,
    p: &PredDef,
    names: &Names,
    defs: &Defs,
) -> Result<(), NoMemory> {
    let name = &p.name;
    write!(out, "  pred {name}")?;
    push_vars(out, p.params.as_slice())?;
    push_names(out, p.next, names)?;
    push_formula(alloc, out, "body", &p.body, defs)?;
    let inv = numbered_pure(alloc, &p.inv)?;
    write!(out, "    inv {inv}\n")?;
    Ok(())
}

fn push_lemma(
    alloc: Global,
    out: &mut String,
    lemma: &Lemma,
    names: &Names,
    defs: &Defs,
) -> Result<(), NoMemory> {
    let name = &lemma.name;
    let pred = lemma.pred;
    write!(out, "  lemma {name} of {pred}")?;
    push_vars(out, lemma.params.as_slice())?;
    push_names(out, lemma.next, names)?;
    let mut cases = Items::new(alloc);
    cases.push(lemma.right.copy(alloc)?)?;
    push_formula(alloc, out, "right", &Formula { cases }, defs)
}

fn push_entailment(
    alloc: Global,
    out: &mut String,
    e: &Entailment,
    defs: &Defs,
) -> Result<(), NoMemory> {
    write!(out, "  entail open")?;
    push_vars(out, e.opens.as_slice())?;
    push_names(out, e.next, &e.names)?;
    push_formula(alloc, out, "left", &e.left, defs)?;
    push_formula(alloc, out, "right", &e.right, defs)
}

fn push_type(out: &mut String, of: &VarType) -> Result<(), NoMemory> {
    match of {
        VarType::Int => write!(out, ":int")?,
        VarType::Node(number) => write!(out, ":{number}")?,
    }
    Ok(())
}

// `0 <= VARIANT`.
fn bounded(alloc: Global, variant: &Lin) -> Result<Pure, NoMemory> {
    let right = variant.copy(alloc)?;
    let zero = Lin {
        terms: Items::new(alloc),
        constant: 0,
    };
    Ok(Pure::Le(zero, right))
}

// A variant, with the text of its bound.
fn push_variant(alloc: Global, out: &mut String, variant: &Lin) -> Result<(), NoMemory> {
    // On the heap, so that it is dropped by one call and not case by case.
    let bounded = Box::new(alloc, bounded(alloc, variant)?)?;
    let text = numbered_pure(alloc, &bounded)?;
    write!(out, "    variant {text}\n")?;
    Ok(())
}

fn push_pair(alloc: Global, out: &mut String, p: &PairTree, defs: &Defs) -> Result<(), NoMemory> {
    write!(out, "    pair logic")?;
    push_vars(out, p.logic.as_slice())?;
    push_names(out, p.next, &p.names)?;
    push_formula(alloc, out, "requires", &p.pair_pre, defs)?;
    if let Some(variant) = &p.variant {
        push_variant(alloc, out, variant)?;
    }
    push_formula(alloc, out, "ensures", &p.pair_post, defs)
}

fn word(statement: &StatementTree) -> &'static str {
    match &statement.kind {
        StatementKind::Local(_, _, _) => "local",
        StatementKind::Assign(_, _) => "assign",
        StatementKind::Store(_, _, _) => "store",
        StatementKind::Call(_) => "call",
        StatementKind::Branch(_, _, _) => "branch",
        StatementKind::Return(_) => "return",
    }
}

// The kinds of the statements of a block.
fn push_block(out: &mut String, block: &BlockTree) -> Result<(), NoMemory> {
    write!(out, "    block")?;
    for statement in block.statements.as_slice() {
        let word = word(statement);
        write!(out, " {word}")?;
    }
    write!(out, "\n")?;
    Ok(())
}

fn push_method(
    alloc: Global,
    out: &mut String,
    m: &MethodTree,
    defs: &Defs,
) -> Result<(), NoMemory> {
    let name = &m.name;
    write!(out, "  method {name}")?;
    for param in m.params.as_slice() {
        let name = &param.name;
        write!(out, " {name}")?;
        push_type(out, &param.kind)?;
    }
    if let Some(result) = &m.result {
        write!(out, " res")?;
        push_type(out, result)?;
    }
    write!(out, "\n")?;
    for pair in m.pairs.as_slice() {
        push_pair(alloc, out, pair, defs)?;
    }
    push_block(out, &m.block)
}

fn push_defs(alloc: Global, out: &mut String, r: &Resolved) -> Result<(), NoMemory> {
    for node in r.defs.nodes.as_slice() {
        push_node(out, node)?;
    }
    let preds = r.defs.preds.as_slice();
    for (p, names) in preds.iter().zip(r.pred_names.as_slice()) {
        push_pred(alloc, out, p, names, &r.defs)?;
    }
    let lemmas = r.defs.lemmas.as_slice();
    for (lemma, names) in lemmas.iter().zip(r.lemma_names.as_slice()) {
        push_lemma(alloc, out, lemma, names, &r.defs)?;
    }
    Ok(())
}

/// All parts of a source.
pub fn push_resolved(alloc: Global, out: &mut String, r: &Resolved) -> Result<(), NoMemory> {
    push_defs(alloc, out, r)?;
    for e in r.entailments.as_slice() {
        push_entailment(alloc, out, e, &r.defs)?;
    }
    for m in r.methods.as_slice() {
        push_method(alloc, out, m, &r.defs)?;
    }
    Ok(())
}

/// The entailments of a source under their source names.
pub fn push_named(alloc: Global, out: &mut String, r: &Resolved) -> Result<(), NoMemory> {
    for e in r.entailments.as_slice() {
        let left = formula(alloc, &e.left, &e.names, &r.defs)?;
        let right = formula(alloc, &e.right, &e.names, &r.defs)?;
        write!(out, "  {left} |- {right}\n")?;
        for case in e.left.cases.as_slice() {
            push_conjuncts(alloc, out, case.pure.as_slice(), &e.names)?;
        }
    }
    Ok(())
}

fn push_conjuncts(
    alloc: Global,
    out: &mut String,
    conjuncts: &[Pure],
    names: &Names,
) -> Result<(), NoMemory> {
    for conjunct in conjuncts {
        let text = pure(alloc, conjunct, names)?;
        write!(out, "    {text}\n")?;
    }
    Ok(())
}

/// A formula by its numbers.
pub fn push_numbered(
    alloc: Global,
    out: &mut String,
    f: &Formula,
    defs: &Defs,
) -> Result<(), NoMemory> {
    let text = numbered_formula(alloc, f, defs)?;
    write!(out, "  {text}\n")?;
    Ok(())
}

fn push_free(out: &mut String, p: &Pure, bag: bool) -> Result<(), NoMemory> {
    let letter = if bag { 'V' } else { 'v' };
    for number in 0..10u32 {
        if p.has(Var { number, bag }) {
            write!(out, " {letter}{number}")?;
        }
    }
    Ok(())
}

/// The variables below 10 that are free in each conjunct of a formula, and its greatest number.
pub fn push_occurrences(out: &mut String, f: &Formula) -> Result<(), NoMemory> {
    for case in f.cases.as_slice() {
        for p in case.pure.as_slice() {
            write!(out, "  free")?;
            push_free(out, p, false)?;
            push_free(out, p, true)?;
            let top = p.top();
            write!(out, "; top {top}\n")?;
        }
    }
    Ok(())
}
