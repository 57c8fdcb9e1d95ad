//! Conjunctions, and what they are made of.

ghost use Rattle.std.specs.Prelude.{◌≡◌, ◌+◌, ◌-◌, IfOk};
ghost use Rattle.hs_words.specs.Input.{Reads, ReadsAs, opening};
ghost use Rattle.hs_read_pure.specs.Item as spec;

use crate::expressions::{expr, name};
use hs_lex::Sign;
use hs_tree::{Ident, ItemKind, ItemTree, PureTree, RelTree};
use hs_words::{Cursor, Keyword, ReadError, Word};
use sqlite_items::{Boxed, Items};
use std::alloc::Global;

/// The relation that a word is.
pub fn relation(word: Word) -> Option<RelTree>
    ensures { result ≡ spec.relation word }
{
    match word {
        Word::Sign(Sign::Equals) => Some(RelTree::Eq),
        Word::Sign(Sign::NotEq) => Some(RelTree::Ne),
        Word::Sign(Sign::Less) => Some(RelTree::Lt),
        Word::Sign(Sign::LessEq) => Some(RelTree::Le),
        Word::Sign(Sign::Greater) => Some(RelTree::Gt),
        Word::Sign(Sign::GreaterEq) => Some(RelTree::Ge),
        Word::Key(Keyword::Subset) => Some(RelTree::Subset),
        Word::Key(Keyword::In) => Some(RelTree::Within),
        _ => None,
    }
}

#[tactic(auto, unfolding(crate::specs::Item::comparison))]
fn comparison(alloc: Global, tokens: &mut Cursor<'_>, depth: u32) -> Result<ItemKind, ReadError>
    ensures { Reads (spec.comparison depth tokens.old) result tokens.new }
{
    let left = expr(alloc, tokens, depth)?;
    let Some(relation) = relation(tokens.peek()) else {
        return Err(tokens.refuse());
    };
    tokens.skip();
    Ok(ItemKind::Rel(relation, left, expr(alloc, tokens, depth)?))
}

#[tactic(auto, unfolding(crate::specs::Item::number))]
fn number(tokens: &mut Cursor<'_>) -> Result<u128, ReadError>
    ensures { Reads (spec.number tokens.old) result tokens.new }
{
    match tokens.peek() {
        Word::Number(number) => {
            tokens.skip();
            Ok(number)
        }
        _ => Err(tokens.refuse()),
    }
}

/// Takes the token that opens a level, and answers how many levels are left then.
#[tactic(auto, using(crate::proofs::Levels::item_opening_none, crate::proofs::Levels::item_opening_first))]
fn open(tokens: &mut Cursor<'_>, depth: u32) -> Result<u32, ReadError>
    ensures reads { ReadsAs (λ _. tt) (opening (spec.levels_of depth) tokens.old) result tokens.new }
    ensures level { IfOk result (λ left. left + 1 ≡ depth) }
{
    if depth == 0 {
        return Err(ReadError::TooDeep(tokens.place()));
    }
    tokens.skip();
    Ok(depth - 1)
}

#[tactic(auto, unfolding(crate::specs::Item::opening_paren))]
fn open_paren(tokens: &mut Cursor<'_>, depth: u32) -> Result<u32, ReadError>
    ensures reads { ReadsAs (λ _. tt) (spec.opening_paren (spec.levels_of depth) tokens.old) result tokens.new }
    ensures level { IfOk result (λ left. left + 1 ≡ depth) }
{
    if !tokens.sees(Sign::OpenParen) {
        return Err(tokens.refuse());
    }
    open(tokens, depth)
}

#[tactic(auto, unfolding(crate::specs::Item::divides))]
fn divides(alloc: Global, tokens: &mut Cursor<'_>, depth: u32) -> Result<ItemKind, ReadError>
    ensures { Reads (spec.divides depth (spec.levels_of depth) tokens.old) result tokens.new }
{
    tokens.skip();
    let left = open_paren(tokens, depth)?;
    let divisor = number(tokens)?;
    tokens.expect(Sign::Comma)?;
    let of = expr(alloc, tokens, left)?;
    tokens.expect(Sign::CloseParen)?;
    Ok(ItemKind::Divides(divisor, of))
}

/// Items with `&` between.
#[cycle(item)]
#[tactic(auto, unfolding(crate::specs::Item::conj, hs_words::specs::Input::repeat))]
pub fn conj(
    alloc: Global,
    tokens: &mut Cursor<'_>,
    depth: u32,
) -> Result<Items<ItemTree>, ReadError>
    ensures { Reads (spec.conj (spec.item depth) tokens.old) result tokens.new }
{
    let mut found = Items::new(alloc);
    found.push(item(alloc, tokens, depth)?)?;
    for _turn in 0..tokens.left() {
        if !tokens.sees(Sign::Amp) {
            return Ok(found);
        }
        tokens.skip();
        found.push(item(alloc, tokens, depth)?)?;
    }
    Ok(found)
}

/// Conjunctions with `|` between.
#[cycle(item)]
#[tactic(auto, unfolding(crate::specs::Item::disjunction, hs_words::specs::Input::repeat))]
pub fn disjunction(
    alloc: Global,
    tokens: &mut Cursor<'_>,
    depth: u32,
) -> Result<PureTree, ReadError>
    ensures { Reads (spec.disjunction (spec.item depth) tokens.old) result tokens.new }
{
    let at = tokens.place();
    let mut cases = Items::new(alloc);
    cases.push(conj(alloc, tokens, depth)?)?;
    for _turn in 0..tokens.left() {
        if !tokens.sees(Sign::Bar) {
            return Ok(PureTree { cases, at });
        }
        tokens.skip();
        cases.push(conj(alloc, tokens, depth)?)?;
    }
    Ok(PureTree { cases, at })
}

/// A disjunction and the closing parenthesis.
#[cycle(item)]
#[tactic(auto, unfolding(crate::specs::Item::closed))]
fn closed(alloc: Global, tokens: &mut Cursor<'_>, depth: u32) -> Result<PureTree, ReadError>
    ensures { Reads (spec.closed (spec.item depth) tokens.old) result tokens.new }
{
    let body = disjunction(alloc, tokens, depth)?;
    tokens.expect(Sign::CloseParen)?;
    Ok(body)
}

/// What a quantifier binds, and its body, from the word on.
#[cycle(item)]
#[tactic(auto, unfolding(crate::specs::Item::binder))]
fn binder(
    alloc: Global,
    tokens: &mut Cursor<'_>,
    depth: u32,
) -> Result<(Ident, PureTree), ReadError>
    ensures { Reads (spec.binder (spec.item depth) tokens.old) result tokens.new }
{
    tokens.skip();
    let bound = name(alloc, tokens)?;
    tokens.expect(Sign::Dot)?;
    let body = closed(alloc, tokens, depth)?;
    Ok((bound, body))
}

#[cycle(item)]
#[tactic(auto, using(crate::proofs::Levels::item_levels_first), unfolding(crate::specs::Item::negation))]
fn negation(alloc: Global, tokens: &mut Cursor<'_>, depth: u32) -> Result<ItemKind, ReadError>
    ensures { Reads (spec.negation depth (spec.levels_of depth) tokens.old) result tokens.new }
{
    let left = open(tokens, depth)?;
    Ok(ItemKind::Not(Boxed::new(alloc, item(alloc, tokens, left)?)?))
}

#[cycle(item)]
#[tactic(auto, using(crate::proofs::Levels::item_levels_first), unfolding(crate::specs::Item::group))]
fn group(alloc: Global, tokens: &mut Cursor<'_>, depth: u32) -> Result<ItemKind, ReadError>
    ensures { Reads (spec.group depth (spec.levels_of depth) tokens.old) result tokens.new }
{
    let left = open(tokens, depth)?;
    match tokens.peek() {
        Word::Key(Keyword::Exists) => {
            let (bound, body) = binder(alloc, tokens, left)?;
            Ok(ItemKind::Exists(bound, body))
        }
        Word::Key(Keyword::Forall) => {
            let (bound, body) = binder(alloc, tokens, left)?;
            Ok(ItemKind::Forall(bound, body))
        }
        _ => Ok(ItemKind::Group(closed(alloc, tokens, left)?)),
    }
}

#[cycle(item)]
#[tactic(auto, using(crate::proofs::Levels::item_levels_first), unfolding(crate::specs::Item::all))]
fn all(alloc: Global, tokens: &mut Cursor<'_>, depth: u32) -> Result<ItemKind, ReadError>
    ensures { Reads (spec.all depth (spec.levels_of depth) tokens.old) result tokens.new }
{
    tokens.skip();
    let bound = name(alloc, tokens)?;
    tokens.expect_key(Keyword::In)?;
    let within = expr(alloc, tokens, depth)?;
    tokens.expect(Sign::Colon)?;
    let left = open_paren(tokens, depth)?;
    let body = closed(alloc, tokens, left)?;
    Ok(ItemKind::All(bound, within, body))
}

#[cycle(item)]
#[tactic(auto, unfolding(crate::specs::Item::item_kind))]
fn item_kind(alloc: Global, tokens: &mut Cursor<'_>, depth: u32) -> Result<ItemKind, ReadError>
    ensures { Reads (spec.item_kind depth (spec.levels_of depth) tokens.old) result tokens.new }
{
    match tokens.peek() {
        Word::Key(Keyword::True) => {
            tokens.skip();
            Ok(ItemKind::True)
        }
        Word::Key(Keyword::False) => {
            tokens.skip();
            Ok(ItemKind::False)
        }
        Word::Sign(Sign::Bang) => negation(alloc, tokens, depth),
        Word::Sign(Sign::OpenParen) => group(alloc, tokens, depth),
        Word::Key(Keyword::All) => all(alloc, tokens, depth),
        Word::Key(Keyword::Divides) => divides(alloc, tokens, depth),
        _ => comparison(alloc, tokens, depth),
    }
}

/// An item with this many levels of nesting left.
#[cycle(item)]
#[tactic(auto, unfolding(crate::specs::Item::level))]
pub fn item(alloc: Global, tokens: &mut Cursor<'_>, depth: u32) -> Result<ItemTree, ReadError>
    ensures { Reads (spec.item depth tokens.old) result tokens.new }
{
    let at = tokens.place();
    let kind = item_kind(alloc, tokens, depth)?;
    Ok(ItemTree { kind, at })
}
