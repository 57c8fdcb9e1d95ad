//! Formulas in a part of a line.

ghost use Rattle.std.specs.Prelude.{◌≡◌, ◌<◌, ◌^◌, length, IfOk};
ghost use Rattle.std.specs.List.{AllByRecursion};
ghost use Rattle.std.specs.Str.{IsUtf8};
ghost use Rattle.hs_lex.specs.Tokens.{IsSpan};
ghost use Rattle.hs_norm_formula.specs.Numbered.{numbered as numbered_of};
ghost use Rattle.hs_line.specs.Steps.{Gives, GivesAs};
ghost use Rattle.hs_dtext.specs.Formulas as spec;

use hs_heap::{Atom, Defs, Formula};
use hs_lex::{LexError, Token, lex};
use hs_line::{Fault, Rest, Stop};
use hs_norm_formula::{NormError, numbered};
use hs_pure::NoMemory;
use hs_read_pure::read_formula;
use hs_tree::{DisjunctTree, FormulaTree};
use hs_words::ReadError;
use sqlite_items::Items;
use std::alloc::Global;
use std::str;

/// The greatest number of a formula.
const GREATEST: u128 = 1 << 126;

// Whether two slashes stand side by side.
fn has_comment(text: &[u8]) -> bool
    ensures { result ≡ spec.has_comment text.now }
{
    let mut rest = text;
    while let [first, later @ ..] = rest {
        if *first == b'/' && begins_with_slash(later) {
            return true;
        }
        rest = later;
    }
    false
}

fn begins_with_slash(text: &[u8]) -> bool
    ensures { result ≡ spec.second_is 47 text.now }
{
    match text {
        [] => false,
        [first, ..] => *first == b'/',
    }
}

fn lex_fault(error: LexError) -> Fault
    ensures { result ≡ spec.lex_fault error }
{
    match error {
        LexError::LiteralWide(_) => Fault::Number,
        LexError::NotUtf8(_) => Fault::Formula,
        LexError::BadByte(_) => Fault::Formula,
        LexError::NameLong(_) => Fault::Formula,
        LexError::Memory => Fault::Formula,
    }
}

// The tokens of a text without comments.
#[tactic(auto, using(crate::proofs::Tokens::lexed_cause))]
pub fn tokens(alloc: Global, text: &[u8]) -> Result<Vec<Token>, Stop>
    requires { length text.now < 2 ^ 32 }
    ensures outcome { GivesAs (λ v. v.items) (spec.tokens text.now) result }
    ensures spans { IfOk result (λ v. AllByRecursion (IsSpan text.now) v.items) }
    ensures utf8 { IfOk result (λ v. IsUtf8 text.now) }
{
    match lex(alloc, text, GREATEST) {
        Ok(tokens) => {
            if has_comment(text) {
                return Err(Stop::Fault(Fault::Formula));
            }
            Ok(tokens)
        }
        Err(LexError::Memory) => Err(Stop::Memory),
        Err(error) => Err(Stop::Fault(lex_fault(error))),
    }
}

pub fn read_stop(error: ReadError) -> Stop
    ensures { result ≡ spec.read_stop error }
{
    match error {
        ReadError::Expected(_, _) => Stop::Fault(Fault::Formula),
        ReadError::TooDeep(_) => Stop::Fault(Fault::Formula),
        ReadError::Memory => Stop::Memory,
    }
}

// The tree of a formula.
#[tactic(auto, using(crate::proofs::Trees::tree_found, crate::proofs::Trees::tree_stopped))]
fn tree(alloc: Global, text: &[u8]) -> Result<FormulaTree, Stop>
    requires { length text.now < 2 ^ 32 }
    ensures { Gives (spec.tree_of text.now) result }
{
    let tokens = tokens(alloc, text)?;
    let Ok(text) = str::from_utf8(text) else {
        return Err(Stop::Fault(Fault::Formula));
    };
    match read_formula(alloc, tokens.as_slice(), text) {
        Ok(tree) => Ok(tree),
        Err(error) => Err(read_stop(error)),
    }
}

pub fn norm_stop(error: NormError) -> Stop
    ensures { result ≡ spec.norm_stop error }
{
    match error {
        NormError::Unknown(_) => Stop::Fault(Fault::Name),
        NormError::Twice(_) => Stop::Fault(Fault::Formula),
        NormError::Kind(_) => Stop::Fault(Fault::Formula),
        NormError::Arity(_) => Stop::Fault(Fault::Arity),
        NormError::TooMany(_, _) => Stop::Fault(Fault::Formula),
        NormError::Shape(_) => Stop::Fault(Fault::Formula),
        NormError::Memory => Stop::Memory,
    }
}

// The formula of a tree that is written by numbers.
#[tactic(auto, using(crate::proofs::Named::named_found, crate::proofs::Named::named_stop))]
fn by_numbers(alloc: Global, defs: &Defs, tree: &FormulaTree) -> Result<Formula, Stop>
    ensures { Gives (spec.named (numbered_of defs.now tree.now)) result }
{
    match numbered(alloc, defs, tree) {
        Ok(formula) => Ok(formula),
        Err(error) => Err(norm_stop(error)),
    }
}

// Whether the word `none` stands alone.
fn is_none(text: &[u8]) -> bool
    ensures { result ≡ spec.is_none text.now }
{
    let mut rest = Rest::new(text);
    rest.name() == b"none".as_slice() && rest.is_over()
}

/// A formula. The word `none` has no disjunct.
pub fn formula(alloc: Global, defs: &Defs, text: &[u8]) -> Result<Formula, Stop>
    requires { length text.now < 2 ^ 32 }
    ensures { Gives (spec.formula defs.now text.now) result }
{
    if is_none(text) {
        return Ok(Formula {
            cases: Items::new(alloc),
        });
    }
    let tree = tree(alloc, text)?;
    by_numbers(alloc, defs, &tree)
}

fn has_atoms_alone(cases: &[DisjunctTree]) -> bool
    ensures { result ≡ spec.has_atoms_alone cases.now }
{
    match cases {
        [case] => case.bound.is_empty() && case.items.is_empty(),
        _ => false,
    }
}

fn copy_atoms(alloc: Global, atoms: &[Atom]) -> Result<Items<Atom>, NoMemory>
    ensures { IfOk result (λ all. all ≡ atoms.now) }
{
    let mut all = Items::new(alloc);
    for atom in atoms {
        all.push(atom.copy(alloc)?)?;
    }
    Ok(all)
}

fn first_atoms(alloc: Global, f: &Formula) -> Result<Items<Atom>, NoMemory>
    ensures { IfOk result (λ atoms. atoms ≡ spec.first_atoms f.now.cases) }
{
    match f.cases.as_slice() {
        [] => Ok(Items::new(alloc)),
        [first, ..] => copy_atoms(alloc, first.atoms.as_slice()),
    }
}

/// Atoms without binders and conjuncts.
pub fn heap(alloc: Global, defs: &Defs, text: &[u8]) -> Result<Items<Atom>, Stop>
    requires { length text.now < 2 ^ 32 }
    ensures { Gives (spec.heap defs.now text.now) result }
{
    let tree = tree(alloc, text)?;
    if !has_atoms_alone(tree.cases.as_slice()) {
        return Err(Stop::Fault(Fault::Formula));
    }
    let formula = by_numbers(alloc, defs, &tree)?;
    Ok(first_atoms(alloc, &formula)?)
}
