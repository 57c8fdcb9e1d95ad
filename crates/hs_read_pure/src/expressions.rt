//! Expressions.

ghost use Rattle.std.specs.Prelude.{◌≡◌, ◌+◌, [], IfOk};
ghost use Rattle.hs_words.specs.Input.{Reads, ReadsAs, opening};
ghost use Rattle.hs_read_pure.specs.Expr as spec;

use hs_lex::Sign;
use hs_text::Text;
use hs_tree::{ExprKind, ExprTree, Ident, PartTree};
use hs_words::{Cursor, Keyword, ReadError, Word};
use sqlite_items::{Boxed, Items};
use std::alloc::Global;

/// The name that is the next token.
fn identifier(alloc: Global, tokens: &mut Cursor<'_>) -> Result<Ident, ReadError>
    ensures { Reads (spec.identifier tokens.old) result tokens.new }
{
    let at = tokens.place();
    let text = Text::from_str(alloc, tokens.spelling())?;
    tokens.skip();
    Ok(Ident { text, at })
}

/// A name that is no keyword.
#[tactic(auto, unfolding(crate::specs::Expr::name))]
pub fn name(alloc: Global, tokens: &mut Cursor<'_>) -> Result<Ident, ReadError>
    ensures { Reads (spec.name tokens.old) result tokens.new }
{
    match tokens.peek() {
        Word::Name => identifier(alloc, tokens),
        _ => Err(tokens.refuse()),
    }
}

/// Whether a variable begins with this word.
pub fn begins_var(word: Word) -> bool
    ensures { result ≡ spec.begins_var word }
{
    matches!(
        word,
        Word::Name | Word::Key(Keyword::SelfWord) | Word::Key(Keyword::Res)
    )
}

/// A name, `self` or `res`.
#[tactic(auto, unfolding(crate::specs::Expr::variable))]
pub fn variable(alloc: Global, tokens: &mut Cursor<'_>) -> Result<Ident, ReadError>
    ensures { Reads (spec.variable tokens.old) result tokens.new }
{
    if !begins_var(tokens.peek()) {
        return Err(tokens.refuse());
    }
    identifier(alloc, tokens)
}

#[tactic(auto, unfolding(crate::specs::Expr::read_part))]
fn part(alloc: Global, tokens: &mut Cursor<'_>) -> Result<PartTree, ReadError>
    ensures { Reads (spec.read_part tokens.old) result tokens.new }
{
    match tokens.peek() {
        Word::Number(number) => {
            tokens.skip();
            if tokens.sees(Sign::Star) {
                tokens.skip();
                Ok(PartTree::Times(number, variable(alloc, tokens)?))
            } else {
                Ok(PartTree::Number(number))
            }
        }
        Word::Key(Keyword::Null) => {
            tokens.skip();
            Ok(PartTree::Null)
        }
        _ => Ok(PartTree::Name(variable(alloc, tokens)?)),
    }
}

#[tactic(auto, unfolding(crate::specs::Expr::first_part))]
fn first_part(alloc: Global, tokens: &mut Cursor<'_>) -> Result<(bool, PartTree), ReadError>
    ensures { Reads (spec.first_part tokens.old) result tokens.new }
{
    if tokens.sees(Sign::Minus) {
        tokens.skip();
        Ok((true, part(alloc, tokens)?))
    } else {
        Ok((false, part(alloc, tokens)?))
    }
}

fn is_signed(word: Word) -> bool
    ensures { result ≡ spec.is_signed word }
{
    matches!(word, Word::Sign(Sign::Plus) | Word::Sign(Sign::Minus))
}

/// A part behind its sign.
#[tactic(auto, unfolding(crate::specs::Expr::signed_part))]
fn signed_part(alloc: Global, tokens: &mut Cursor<'_>) -> Result<(bool, PartTree), ReadError>
    ensures { Reads (spec.signed_part tokens.old) result tokens.new }
{
    let minus = tokens.sees(Sign::Minus);
    tokens.skip();
    let part = part(alloc, tokens)?;
    Ok((minus, part))
}

#[tactic(auto, unfolding(crate::specs::Expr::parts, hs_words::specs::Input::repeat))]
fn parts(alloc: Global, tokens: &mut Cursor<'_>) -> Result<Items<(bool, PartTree)>, ReadError>
    ensures { Reads (spec.parts tokens.old) result tokens.new }
{
    let mut found = Items::new(alloc);
    found.push(first_part(alloc, tokens)?)?;
    for _turn in 0..tokens.left() {
        if !is_signed(tokens.peek()) {
            return Ok(found);
        }
        found.push(signed_part(alloc, tokens)?)?;
    }
    Ok(found)
}

/// Takes the token that opens a level, and answers how many levels are left then.
#[tactic(auto, using(crate::proofs::Levels::opening_none, crate::proofs::Levels::opening_first))]
fn open(tokens: &mut Cursor<'_>, depth: u32) -> Result<u32, ReadError>
    ensures reads { ReadsAs (λ _. tt) (opening (spec.levels_of depth) tokens.old) result tokens.new }
    ensures level { IfOk result (λ left. left + 1 ≡ depth) }
{
    if depth == 0 {
        return Err(ReadError::TooDeep(tokens.place()));
    }
    tokens.skip();
    Ok(depth - 1)
}

/// Expressions with commas between, up to the closing brace. Each comma opens a level.
#[cycle(expr)]
#[tactic(auto, using(crate::proofs::Levels::levels_first), unfolding(crate::specs::Expr::elements))]
fn elements(
    alloc: Global,
    tokens: &mut Cursor<'_>,
    mut depth: u32,
) -> Result<Items<ExprTree>, ReadError>
    ensures { Reads (spec.elements (spec.levels_of (depth + 1)) [] tokens.old) result tokens.new }
{
    let mut found = Items::new(alloc);
    loop {
        found.push(expr(alloc, tokens, depth)?)?;
        if !tokens.sees(Sign::Comma) {
            return Ok(found);
        }
        depth = open(tokens, depth)?;
    }
}

#[cycle(expr)]
#[tactic(auto, using(crate::proofs::Levels::levels_first), unfolding(crate::specs::Expr::braces))]
fn braces(alloc: Global, tokens: &mut Cursor<'_>, depth: u32) -> Result<Items<ExprTree>, ReadError>
    ensures { Reads (spec.braces (spec.levels_of depth) tokens.old) result tokens.new }
{
    let depth = open(tokens, depth)?;
    if tokens.sees(Sign::CloseBrace) {
        tokens.skip();
        return Ok(Items::new(alloc));
    }
    let found = elements(alloc, tokens, depth)?;
    tokens.expect(Sign::CloseBrace)?;
    Ok(found)
}

/// Two expressions in parentheses, after a word that opens a level.
#[cycle(expr)]
#[tactic(auto, using(crate::proofs::Levels::levels_first), unfolding(crate::specs::Expr::pair))]
fn pair(
    alloc: Global,
    tokens: &mut Cursor<'_>,
    depth: u32,
) -> Result<(Boxed<ExprTree>, Boxed<ExprTree>), ReadError>
    ensures { Reads (spec.pair (spec.levels_of depth) tokens.old) result tokens.new }
{
    let depth = open(tokens, depth)?;
    tokens.expect(Sign::OpenParen)?;
    let left = Boxed::new(alloc, expr(alloc, tokens, depth)?)?;
    tokens.expect(Sign::Comma)?;
    let right = Boxed::new(alloc, expr(alloc, tokens, depth)?)?;
    tokens.expect(Sign::CloseParen)?;
    Ok((left, right))
}

#[cycle(expr)]
#[tactic(auto, unfolding(crate::specs::Expr::expr_kind))]
fn expr_kind(alloc: Global, tokens: &mut Cursor<'_>, depth: u32) -> Result<ExprKind, ReadError>
    ensures { Reads (spec.expr_kind (spec.levels_of depth) tokens.old) result tokens.new }
{
    match tokens.peek() {
        Word::Sign(Sign::OpenBrace) => Ok(ExprKind::Braces(braces(alloc, tokens, depth)?)),
        Word::Key(Keyword::Union) => {
            let (left, right) = pair(alloc, tokens, depth)?;
            Ok(ExprKind::Union(left, right))
        }
        Word::Key(Keyword::Inter) => {
            let (left, right) = pair(alloc, tokens, depth)?;
            Ok(ExprKind::Inter(left, right))
        }
        Word::Key(Keyword::Diff) => {
            let (left, right) = pair(alloc, tokens, depth)?;
            Ok(ExprKind::Diff(left, right))
        }
        _ => Ok(ExprKind::Sum(parts(alloc, tokens)?)),
    }
}

/// An expression with this many levels of nesting left.
#[cycle(expr)]
#[tactic(auto, unfolding(crate::specs::Expr::level))]
pub fn expr(alloc: Global, tokens: &mut Cursor<'_>, depth: u32) -> Result<ExprTree, ReadError>
    ensures { Reads (spec.expr depth tokens.old) result tokens.new }
{
    let at = tokens.place();
    let kind = expr_kind(alloc, tokens, depth)?;
    Ok(ExprTree { kind, at })
}
