//! Formulas of heaps.

ghost use Rattle.std.specs.Prelude.{◌≡◌};
ghost use Rattle.hs_words.specs.Input.{Reads};
ghost use Rattle.hs_read_pure.specs.Formula as spec;

use crate::expressions::{begins_var, expr, name, variable};
use crate::items::conj;
use hs_lex::Sign;
use hs_tree::{ArgTree, AtomTree, DisjunctTree, FormulaTree, Ident, ItemTree};
use hs_words::{Cursor, Keyword, ReadError, Word};
use sqlite_items::Items;
use std::alloc::Global;

/// Names with commas between.
#[tactic(auto, unfolding(crate::specs::Formula::names, hs_words::specs::Input::repeat))]
pub fn names(alloc: Global, tokens: &mut Cursor<'_>) -> Result<Items<Ident>, ReadError>
    ensures { Reads (spec.names tokens.old) result tokens.new }
{
    let mut found = Items::new(alloc);
    found.push(name(alloc, tokens)?)?;
    for _turn in 0..tokens.left() {
        if !tokens.sees(Sign::Comma) {
            return Ok(found);
        }
        tokens.skip();
        found.push(name(alloc, tokens)?)?;
    }
    Ok(found)
}

#[tactic(auto, unfolding(crate::specs::Formula::arg))]
fn arg(alloc: Global, tokens: &mut Cursor<'_>, depth: u32) -> Result<ArgTree, ReadError>
    ensures { Reads (spec.arg depth tokens.old) result tokens.new }
{
    match tokens.peek() {
        Word::Hole => {
            let at = tokens.place();
            tokens.skip();
            Ok(ArgTree::Hole(at))
        }
        _ => Ok(ArgTree::Value(expr(alloc, tokens, depth)?)),
    }
}

#[tactic(auto, unfolding(crate::specs::Formula::args, hs_words::specs::Input::repeat))]
fn args(alloc: Global, tokens: &mut Cursor<'_>, depth: u32) -> Result<Items<ArgTree>, ReadError>
    ensures { Reads (spec.args depth tokens.old) result tokens.new }
{
    let mut found = Items::new(alloc);
    found.push(arg(alloc, tokens, depth)?)?;
    for _turn in 0..tokens.left() {
        if !tokens.sees(Sign::Comma) {
            return Ok(found);
        }
        tokens.skip();
        found.push(arg(alloc, tokens, depth)?)?;
    }
    Ok(found)
}

/// The arguments of an atom, in angle brackets.
#[tactic(auto, unfolding(crate::specs::Formula::arguments))]
fn arguments(
    alloc: Global,
    tokens: &mut Cursor<'_>,
    depth: u32,
) -> Result<Items<ArgTree>, ReadError>
    ensures { Reads (spec.arguments depth tokens.old) result tokens.new }
{
    tokens.expect(Sign::Less)?;
    if tokens.sees(Sign::Greater) {
        tokens.skip();
        return Ok(Items::new(alloc));
    }
    let found = args(alloc, tokens, depth)?;
    tokens.expect(Sign::Greater)?;
    Ok(found)
}

#[tactic(auto, unfolding(crate::specs::Formula::atom))]
fn atom(alloc: Global, tokens: &mut Cursor<'_>, depth: u32) -> Result<AtomTree, ReadError>
    ensures { Reads (spec.atom depth tokens.old) result tokens.new }
{
    let root = variable(alloc, tokens)?;
    tokens.expect(Sign::ColonColon)?;
    let name = name(alloc, tokens)?;
    let args = arguments(alloc, tokens, depth)?;
    Ok(AtomTree { root, name, args })
}

#[tactic(auto, unfolding(crate::specs::Formula::atoms, hs_words::specs::Input::repeat))]
fn atoms(alloc: Global, tokens: &mut Cursor<'_>, depth: u32) -> Result<Items<AtomTree>, ReadError>
    ensures { Reads (spec.atoms depth tokens.old) result tokens.new }
{
    let mut found = Items::new(alloc);
    found.push(atom(alloc, tokens, depth)?)?;
    for _turn in 0..tokens.left() {
        if !tokens.sees(Sign::Star) {
            return Ok(found);
        }
        tokens.skip();
        found.push(atom(alloc, tokens, depth)?)?;
    }
    Ok(found)
}

#[tactic(auto, unfolding(crate::specs::Formula::heap))]
fn heap(alloc: Global, tokens: &mut Cursor<'_>, depth: u32) -> Result<Items<AtomTree>, ReadError>
    ensures { Reads (spec.heap depth tokens.old) result tokens.new }
{
    match tokens.peek() {
        Word::Key(Keyword::Emp) => {
            tokens.skip();
            Ok(Items::new(alloc))
        }
        _ => atoms(alloc, tokens, depth),
    }
}

/// The conjuncts behind a heap.
#[tactic(auto, unfolding(crate::specs::Formula::conjuncts))]
fn conjuncts(
    alloc: Global,
    tokens: &mut Cursor<'_>,
    depth: u32,
) -> Result<Items<ItemTree>, ReadError>
    ensures { Reads (spec.conjuncts depth tokens.old) result tokens.new }
{
    if !tokens.sees(Sign::Amp) {
        return Ok(Items::new(alloc));
    }
    tokens.skip();
    conj(alloc, tokens, depth)
}

#[tactic(auto, unfolding(crate::specs::Formula::spatial))]
fn spatial(
    alloc: Global,
    tokens: &mut Cursor<'_>,
    depth: u32,
) -> Result<(Items<AtomTree>, Items<ItemTree>), ReadError>
    ensures { Reads (spec.spatial depth tokens.old) result tokens.new }
{
    let atoms = heap(alloc, tokens, depth)?;
    let items = conjuncts(alloc, tokens, depth)?;
    Ok((atoms, items))
}

fn is_colons(word: Word) -> bool
    ensures { result ≡ spec.is_colons word }
{
    matches!(word, Word::Sign(Sign::ColonColon))
}

/// Whether a heap begins with these two words.
fn begins_heap(first: Word, second: Word) -> bool
    ensures { result ≡ spec.begins_heap first second }
{
    match first {
        Word::Key(Keyword::Emp) => true,
        _ => begins_var(first) && is_colons(second),
    }
}

#[tactic(auto, unfolding(crate::specs::Formula::body))]
fn body(
    alloc: Global,
    tokens: &mut Cursor<'_>,
    depth: u32,
) -> Result<(Items<AtomTree>, Items<ItemTree>), ReadError>
    ensures { Reads (spec.body depth tokens.old) result tokens.new }
{
    if begins_heap(tokens.peek(), tokens.second()) {
        return spatial(alloc, tokens, depth);
    }
    let items = conj(alloc, tokens, depth)?;
    Ok((Items::new(alloc), items))
}

/// The names that a disjunct binds.
#[tactic(auto, unfolding(crate::specs::Formula::bound))]
fn bound(alloc: Global, tokens: &mut Cursor<'_>) -> Result<Items<Ident>, ReadError>
    ensures { Reads (spec.bound tokens.old) result tokens.new }
{
    if !tokens.sees_key(Keyword::Exists) {
        return Ok(Items::new(alloc));
    }
    tokens.skip();
    let found = names(alloc, tokens)?;
    tokens.expect(Sign::Dot)?;
    Ok(found)
}

/// A disjunct with this many levels of nesting left.
#[tactic(auto, unfolding(crate::specs::Formula::disjunct))]
pub fn disjunct(
    alloc: Global,
    tokens: &mut Cursor<'_>,
    depth: u32,
) -> Result<DisjunctTree, ReadError>
    ensures { Reads (spec.disjunct depth tokens.old) result tokens.new }
{
    let at = tokens.place();
    let bound = bound(alloc, tokens)?;
    let (atoms, items) = body(alloc, tokens, depth)?;
    Ok(DisjunctTree {
        bound,
        atoms,
        items,
        at,
    })
}

/// A formula with this many levels of nesting left.
#[tactic(auto, unfolding(crate::specs::Formula::formula, hs_words::specs::Input::repeat))]
pub fn formula(alloc: Global, tokens: &mut Cursor<'_>, depth: u32) -> Result<FormulaTree, ReadError>
    ensures { Reads (spec.formula depth tokens.old) result tokens.new }
{
    let at = tokens.place();
    let mut cases = Items::new(alloc);
    cases.push(disjunct(alloc, tokens, depth)?)?;
    for _turn in 0..tokens.left() {
        if !tokens.sees_key(Keyword::Or) {
            return Ok(FormulaTree { cases, at });
        }
        tokens.skip();
        cases.push(disjunct(alloc, tokens, depth)?)?;
    }
    Ok(FormulaTree { cases, at })
}
