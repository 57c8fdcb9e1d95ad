//! Statements and blocks.

ghost use Rattle.std.specs.Prelude.{◌≡◌, ◌+◌, IfOk};
ghost use Rattle.hs_words.specs.Input.{Reads, ReadsAs, opening, second_word};
ghost use Rattle.hs_read.specs.Statement as spec;

use crate::conditions::condition;
use hs_lex::Sign;
use hs_read_pure::{expr, name};
use hs_tree::{BlockTree, CallTree, ExprTree, StatementKind, StatementTree, TypeTree, ValueTree};
use hs_words::{Cursor, Keyword, ReadError, Word};
use sqlite_items::Items;
use std::alloc::Global;

/// A type.
#[tactic(auto, unfolding(crate::specs::Statement::type_tree, hs_read_pure::specs::Expr::name))]
pub fn type_tree(alloc: Global, tokens: &mut Cursor<'_>) -> Result<TypeTree, ReadError>
    ensures { Reads (spec.type_tree tokens.old) result tokens.new }
{
    match tokens.peek() {
        Word::Key(Keyword::Int) => {
            let at = tokens.place();
            tokens.skip();
            Ok(TypeTree::Int(at))
        }
        _ => Ok(TypeTree::Named(name(alloc, tokens)?)),
    }
}

// ---- values

/// Expressions with commas between.
#[tactic(auto, unfolding(crate::specs::Statement::exprs, hs_words::specs::Input::repeat))]
fn exprs(alloc: Global, tokens: &mut Cursor<'_>, depth: u32) -> Result<Items<ExprTree>, ReadError>
    ensures { Reads (spec.exprs depth tokens.old) result tokens.new }
{
    let mut found = Items::new(alloc);
    found.push(expr(alloc, tokens, depth)?)?;
    for _turn in 0..tokens.left() {
        if !tokens.sees(Sign::Comma) {
            return Ok(found);
        }
        tokens.skip();
        found.push(expr(alloc, tokens, depth)?)?;
    }
    Ok(found)
}

/// The arguments of a call, in parentheses.
#[tactic(auto, unfolding(crate::specs::Statement::arguments))]
fn arguments(
    alloc: Global,
    tokens: &mut Cursor<'_>,
    depth: u32,
) -> Result<Items<ExprTree>, ReadError>
    ensures { Reads (spec.arguments depth tokens.old) result tokens.new }
{
    tokens.expect(Sign::OpenParen)?;
    if tokens.sees(Sign::CloseParen) {
        tokens.skip();
        return Ok(Items::new(alloc));
    }
    let found = exprs(alloc, tokens, depth)?;
    tokens.expect(Sign::CloseParen)?;
    Ok(found)
}

#[tactic(auto, unfolding(crate::specs::Statement::call))]
fn call(alloc: Global, tokens: &mut Cursor<'_>, depth: u32) -> Result<CallTree, ReadError>
    ensures { Reads (spec.call depth tokens.old) result tokens.new }
{
    let name = name(alloc, tokens)?;
    let args = arguments(alloc, tokens, depth)?;
    Ok(CallTree { name, args })
}

/// A new node, from the word on.
#[tactic(auto, unfolding(crate::specs::Statement::new_value))]
fn new_value(alloc: Global, tokens: &mut Cursor<'_>, depth: u32) -> Result<ValueTree, ReadError>
    ensures { Reads (spec.new_value depth tokens.old) result tokens.new }
{
    let at = tokens.place();
    tokens.skip();
    let of = name(alloc, tokens)?;
    let args = arguments(alloc, tokens, depth)?;
    Ok(ValueTree::New(at, of, args))
}

/// A field of a variable.
#[tactic(auto, unfolding(crate::specs::Statement::load))]
fn load(alloc: Global, tokens: &mut Cursor<'_>) -> Result<ValueTree, ReadError>
    ensures { Reads (spec.load tokens.old) result tokens.new }
{
    let from = name(alloc, tokens)?;
    tokens.expect(Sign::Dot)?;
    let field = name(alloc, tokens)?;
    Ok(ValueTree::Load(from, field))
}

#[tactic(auto, unfolding(crate::specs::Statement::value))]
fn value(alloc: Global, tokens: &mut Cursor<'_>, depth: u32) -> Result<ValueTree, ReadError>
    ensures { Reads (spec.value depth tokens.old) result tokens.new }
{
    match tokens.peek() {
        Word::Key(Keyword::New) => new_value(alloc, tokens, depth),
        Word::Name => match tokens.second() {
            Word::Sign(Sign::OpenParen) => Ok(ValueTree::Call(call(alloc, tokens, depth)?)),
            Word::Sign(Sign::Dot) => load(alloc, tokens),
            _ => Ok(ValueTree::Value(expr(alloc, tokens, depth)?)),
        },
        _ => Ok(ValueTree::Value(expr(alloc, tokens, depth)?)),
    }
}

// ---- statements that hold no block

/// What a local gets where it is declared.
#[tactic(auto, unfolding(crate::specs::Statement::initial))]
fn initial(
    alloc: Global,
    tokens: &mut Cursor<'_>,
    depth: u32,
) -> Result<Option<ValueTree>, ReadError>
    ensures { Reads (spec.initial depth tokens.old) result tokens.new }
{
    if !tokens.sees(Sign::Equals) {
        return Ok(None);
    }
    tokens.skip();
    Ok(Some(value(alloc, tokens, depth)?))
}

#[tactic(auto, unfolding(crate::specs::Statement::local))]
fn local(alloc: Global, tokens: &mut Cursor<'_>, depth: u32) -> Result<StatementKind, ReadError>
    ensures { Reads (spec.local depth tokens.old) result tokens.new }
{
    let kind = type_tree(alloc, tokens)?;
    let name = name(alloc, tokens)?;
    let value = initial(alloc, tokens, depth)?;
    tokens.expect(Sign::Semicolon)?;
    Ok(StatementKind::Local(kind, name, value))
}

#[tactic(auto, unfolding(crate::specs::Statement::assign))]
fn assign(alloc: Global, tokens: &mut Cursor<'_>, depth: u32) -> Result<StatementKind, ReadError>
    ensures { Reads (spec.assign depth tokens.old) result tokens.new }
{
    let to = name(alloc, tokens)?;
    tokens.expect(Sign::Equals)?;
    let value = value(alloc, tokens, depth)?;
    tokens.expect(Sign::Semicolon)?;
    Ok(StatementKind::Assign(to, value))
}

#[tactic(auto, unfolding(crate::specs::Statement::store))]
fn store(alloc: Global, tokens: &mut Cursor<'_>, depth: u32) -> Result<StatementKind, ReadError>
    ensures { Reads (spec.store depth tokens.old) result tokens.new }
{
    let at = name(alloc, tokens)?;
    tokens.expect(Sign::Dot)?;
    let field = name(alloc, tokens)?;
    tokens.expect(Sign::Equals)?;
    let from = expr(alloc, tokens, depth)?;
    tokens.expect(Sign::Semicolon)?;
    Ok(StatementKind::Store(at, field, from))
}

#[tactic(auto, unfolding(crate::specs::Statement::called))]
fn called(alloc: Global, tokens: &mut Cursor<'_>, depth: u32) -> Result<StatementKind, ReadError>
    ensures { Reads (spec.called depth tokens.old) result tokens.new }
{
    let call = call(alloc, tokens, depth)?;
    tokens.expect(Sign::Semicolon)?;
    Ok(StatementKind::Call(call))
}

/// What a `return` gives back.
#[tactic(auto, unfolding(crate::specs::Statement::returned))]
fn returned(
    alloc: Global,
    tokens: &mut Cursor<'_>,
    depth: u32,
) -> Result<Option<ExprTree>, ReadError>
    ensures { Reads (spec.returned depth tokens.old) result tokens.new }
{
    if tokens.sees(Sign::Semicolon) {
        return Ok(None);
    }
    Ok(Some(expr(alloc, tokens, depth)?))
}

/// A `return`, from the word on.
#[tactic(auto, unfolding(crate::specs::Statement::return_statement))]
fn return_statement(
    alloc: Global,
    tokens: &mut Cursor<'_>,
    depth: u32,
) -> Result<StatementKind, ReadError>
    ensures { Reads (spec.return_statement depth tokens.old) result tokens.new }
{
    tokens.skip();
    let result = returned(alloc, tokens, depth)?;
    tokens.expect(Sign::Semicolon)?;
    Ok(StatementKind::Return(result))
}

// ---- blocks

fn begins_statement(word: Word) -> bool
    ensures { result ≡ spec.begins_statement word }
{
    matches!(
        word,
        Word::Name | Word::Key(Keyword::Int) | Word::Key(Keyword::If) | Word::Key(Keyword::Return)
    )
}

/// Takes the token that opens a level, and answers how many levels are left then.
#[tactic(auto, using(crate::proofs::Levels::statement_opening_none, crate::proofs::Levels::statement_opening_first))]
fn open(tokens: &mut Cursor<'_>, depth: u32) -> Result<u32, ReadError>
    ensures reads { ReadsAs (λ _. tt) (opening (spec.levels_of depth) tokens.old) result tokens.new }
    ensures level { IfOk result (λ left. left + 1 ≡ depth) }
{
    if depth == 0 {
        return Err(ReadError::TooDeep(tokens.place()));
    }
    tokens.skip();
    Ok(depth - 1)
}

#[tactic(auto, unfolding(crate::specs::Statement::opening_brace))]
fn open_brace(tokens: &mut Cursor<'_>, depth: u32) -> Result<u32, ReadError>
    ensures reads { ReadsAs (λ _. tt) (spec.opening_brace (spec.levels_of depth) tokens.old) result tokens.new }
    ensures level { IfOk result (λ left. left + 1 ≡ depth) }
{
    if !tokens.sees(Sign::OpenBrace) {
        return Err(tokens.refuse());
    }
    open(tokens, depth)
}

#[cycle(statement)]
#[tactic(auto, unfolding(crate::specs::Statement::statements, hs_words::specs::Input::repeat))]
fn statements(
    alloc: Global,
    tokens: &mut Cursor<'_>,
    depth: u32,
) -> Result<Items<StatementTree>, ReadError>
    ensures { Reads (spec.statements (spec.statement depth) tokens.old) result tokens.new }
{
    let mut found = Items::new(alloc);
    for _turn in 0..tokens.left() {
        if !begins_statement(tokens.peek()) {
            return Ok(found);
        }
        found.push(statement(alloc, tokens, depth)?)?;
    }
    Ok(found)
}

/// A block with this many levels of nesting left.
#[cycle(statement)]
#[tactic(auto, using(crate::proofs::Levels::statement_levels_first), unfolding(crate::specs::Statement::block))]
pub fn block(alloc: Global, tokens: &mut Cursor<'_>, depth: u32) -> Result<BlockTree, ReadError>
    ensures { Reads (spec.block (spec.levels_of depth) tokens.old) result tokens.new }
{
    let at = tokens.place();
    let left = open_brace(tokens, depth)?;
    let statements = statements(alloc, tokens, left)?;
    let end = tokens.place();
    tokens.expect(Sign::CloseBrace)?;
    Ok(BlockTree {
        statements,
        at,
        end,
    })
}

/// The block of an `else`.
#[cycle(statement)]
#[tactic(auto, unfolding(crate::specs::Statement::otherwise))]
fn otherwise(
    alloc: Global,
    tokens: &mut Cursor<'_>,
    depth: u32,
) -> Result<Option<BlockTree>, ReadError>
    ensures { Reads (spec.otherwise (spec.levels_of depth) tokens.old) result tokens.new }
{
    if !tokens.sees_key(Keyword::Else) {
        return Ok(None);
    }
    tokens.skip();
    Ok(Some(block(alloc, tokens, depth)?))
}

/// An `if`, from the word on.
#[cycle(statement)]
#[tactic(auto, unfolding(crate::specs::Statement::branch))]
fn branch(alloc: Global, tokens: &mut Cursor<'_>, depth: u32) -> Result<StatementKind, ReadError>
    ensures { Reads (spec.branch depth (spec.levels_of depth) tokens.old) result tokens.new }
{
    tokens.skip();
    tokens.expect(Sign::OpenParen)?;
    let cond = condition(alloc, tokens, depth)?;
    tokens.expect(Sign::CloseParen)?;
    let then_block = block(alloc, tokens, depth)?;
    let else_block = otherwise(alloc, tokens, depth)?;
    Ok(StatementKind::Branch(cond, then_block, else_block))
}

/// A statement that begins with a name.
#[tactic(auto)]
fn named_statement(
    alloc: Global,
    tokens: &mut Cursor<'_>,
    depth: u32,
) -> Result<StatementKind, ReadError>
    ensures { Reads (spec.named_statement depth (second_word tokens.old) tokens.old) result tokens.new }
{
    match tokens.second() {
        Word::Name => local(alloc, tokens, depth),
        Word::Sign(Sign::Equals) => assign(alloc, tokens, depth),
        Word::Sign(Sign::Dot) => store(alloc, tokens, depth),
        Word::Sign(Sign::OpenParen) => called(alloc, tokens, depth),
        _ => {
            tokens.skip();
            Err(tokens.refuse())
        }
    }
}

#[cycle(statement)]
#[tactic(auto, unfolding(crate::specs::Statement::statement_kind))]
fn statement_kind(
    alloc: Global,
    tokens: &mut Cursor<'_>,
    depth: u32,
) -> Result<StatementKind, ReadError>
    ensures { Reads (spec.statement_kind depth (spec.levels_of depth) tokens.old) result tokens.new }
{
    match tokens.peek() {
        Word::Key(Keyword::Int) => local(alloc, tokens, depth),
        Word::Key(Keyword::If) => branch(alloc, tokens, depth),
        Word::Key(Keyword::Return) => return_statement(alloc, tokens, depth),
        Word::Name => named_statement(alloc, tokens, depth),
        _ => Err(tokens.refuse()),
    }
}

#[cycle(statement)]
#[tactic(auto, unfolding(crate::specs::Statement::level))]
fn statement(alloc: Global, tokens: &mut Cursor<'_>, depth: u32) -> Result<StatementTree, ReadError>
    ensures { Reads (spec.statement depth tokens.old) result tokens.new }
{
    let at = tokens.place();
    let kind = statement_kind(alloc, tokens, depth)?;
    Ok(StatementTree { kind, at })
}
