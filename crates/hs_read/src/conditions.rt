//! Conditions.

ghost use Rattle.std.specs.Prelude.{◌≡◌, ◌+◌, IfOk};
ghost use Rattle.hs_words.specs.Input.{Reads, ReadsAs, opening};
ghost use Rattle.hs_read.specs.Test as spec;

use hs_lex::Sign;
use hs_read_pure::expr;
use hs_tree::{CondTree, RelTree, TestKind, TestTree};
use hs_words::{Cursor, ReadError, Word};
use sqlite_items::{Boxed, Items};
use std::alloc::Global;

/// The relation that a word is in a test.
fn test_relation(word: Word) -> Option<RelTree>
    ensures { result ≡ spec.test_relation word }
{
    match word {
        Word::Sign(Sign::EqEq) => Some(RelTree::Eq),
        Word::Sign(Sign::NotEq) => Some(RelTree::Ne),
        Word::Sign(Sign::Less) => Some(RelTree::Lt),
        Word::Sign(Sign::LessEq) => Some(RelTree::Le),
        Word::Sign(Sign::Greater) => Some(RelTree::Gt),
        Word::Sign(Sign::GreaterEq) => Some(RelTree::Ge),
        _ => None,
    }
}

#[tactic(auto, unfolding(crate::specs::Test::comparison))]
fn comparison(alloc: Global, tokens: &mut Cursor<'_>, depth: u32) -> Result<TestKind, ReadError>
    ensures { Reads (spec.comparison depth tokens.old) result tokens.new }
{
    let left = expr(alloc, tokens, depth)?;
    let Some(relation) = test_relation(tokens.peek()) else {
        return Err(tokens.refuse());
    };
    tokens.skip();
    Ok(TestKind::Rel(relation, left, expr(alloc, tokens, depth)?))
}

/// Takes the token that opens a level, and answers how many levels are left then.
#[tactic(auto, using(crate::proofs::Levels::test_opening_none, crate::proofs::Levels::test_opening_first))]
fn open(tokens: &mut Cursor<'_>, depth: u32) -> Result<u32, ReadError>
    ensures reads { ReadsAs (λ _. tt) (opening (spec.levels_of depth) tokens.old) result tokens.new }
    ensures level { IfOk result (λ left. left + 1 ≡ depth) }
{
    if depth == 0 {
        return Err(ReadError::TooDeep(tokens.place()));
    }
    tokens.skip();
    Ok(depth - 1)
}

/// Tests with `&&` between.
#[cycle(condition)]
#[tactic(auto, unfolding(crate::specs::Test::both, hs_words::specs::Input::repeat))]
fn both(alloc: Global, tokens: &mut Cursor<'_>, depth: u32) -> Result<Items<TestTree>, ReadError>
    ensures { Reads (spec.both (spec.test depth) tokens.old) result tokens.new }
{
    let mut found = Items::new(alloc);
    found.push(test(alloc, tokens, depth)?)?;
    for _turn in 0..tokens.left() {
        if !tokens.sees(Sign::AndAnd) {
            return Ok(found);
        }
        tokens.skip();
        found.push(test(alloc, tokens, depth)?)?;
    }
    Ok(found)
}

/// A condition with this many levels of nesting left.
#[cycle(condition)]
#[tactic(auto, unfolding(crate::specs::Test::condition, hs_words::specs::Input::repeat))]
pub fn condition(alloc: Global, tokens: &mut Cursor<'_>, depth: u32) -> Result<CondTree, ReadError>
    ensures { Reads (spec.condition (spec.test depth) tokens.old) result tokens.new }
{
    let at = tokens.place();
    let mut cases = Items::new(alloc);
    cases.push(both(alloc, tokens, depth)?)?;
    for _turn in 0..tokens.left() {
        if !tokens.sees(Sign::OrOr) {
            return Ok(CondTree { cases, at });
        }
        tokens.skip();
        cases.push(both(alloc, tokens, depth)?)?;
    }
    Ok(CondTree { cases, at })
}

#[cycle(condition)]
#[tactic(auto, using(crate::proofs::Levels::test_levels_first), unfolding(crate::specs::Test::negation))]
fn negation(alloc: Global, tokens: &mut Cursor<'_>, depth: u32) -> Result<TestKind, ReadError>
    ensures { Reads (spec.negation depth (spec.levels_of depth) tokens.old) result tokens.new }
{
    let left = open(tokens, depth)?;
    Ok(TestKind::Not(Boxed::new(alloc, test(alloc, tokens, left)?)?))
}

#[cycle(condition)]
#[tactic(auto, using(crate::proofs::Levels::test_levels_first), unfolding(crate::specs::Test::group))]
fn group(alloc: Global, tokens: &mut Cursor<'_>, depth: u32) -> Result<TestKind, ReadError>
    ensures { Reads (spec.group depth (spec.levels_of depth) tokens.old) result tokens.new }
{
    let left = open(tokens, depth)?;
    let cond = condition(alloc, tokens, left)?;
    tokens.expect(Sign::CloseParen)?;
    Ok(TestKind::Group(cond))
}

#[cycle(condition)]
#[tactic(auto, unfolding(crate::specs::Test::test_kind))]
fn test_kind(alloc: Global, tokens: &mut Cursor<'_>, depth: u32) -> Result<TestKind, ReadError>
    ensures { Reads (spec.test_kind depth (spec.levels_of depth) tokens.old) result tokens.new }
{
    match tokens.peek() {
        Word::Sign(Sign::Bang) => negation(alloc, tokens, depth),
        Word::Sign(Sign::OpenParen) => group(alloc, tokens, depth),
        _ => comparison(alloc, tokens, depth),
    }
}

#[cycle(condition)]
#[tactic(auto, unfolding(crate::specs::Test::level))]
fn test(alloc: Global, tokens: &mut Cursor<'_>, depth: u32) -> Result<TestTree, ReadError>
    ensures { Reads (spec.test depth tokens.old) result tokens.new }
{
    let at = tokens.place();
    let kind = test_kind(alloc, tokens, depth)?;
    Ok(TestTree { kind, at })
}
