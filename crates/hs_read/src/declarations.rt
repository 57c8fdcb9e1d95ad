//! Declarations.

ghost use Rattle.std.specs.Prelude.{◌≡◌};
ghost use Rattle.hs_words.specs.Input.{Reads};
ghost use Rattle.hs_read.specs.Declare as spec;

use crate::statements::{block, type_tree};
use hs_lex::Sign;
use hs_read_pure::{conj, disjunct, expr, formula, name, names};
use hs_tree::{
    DataTree, EntailTree, ExprTree, Ident, ItemTree, LemmaTree, MethodSource, PairSource,
    ParamTree, PredTree, TypeTree,
};
use hs_words::{Cursor, Keyword, ReadError, Word};
use sqlite_items::Items;
use std::alloc::Global;

// ---- data types

/// A type and a name.
#[tactic(auto, unfolding(crate::specs::Declare::param))]
fn param(alloc: Global, tokens: &mut Cursor<'_>) -> Result<ParamTree, ReadError>
    ensures { Reads (spec.param tokens.old) result tokens.new }
{
    let at = tokens.place();
    let kind = type_tree(alloc, tokens)?;
    let name = name(alloc, tokens)?;
    Ok(ParamTree { kind, name, at })
}

#[tactic(auto, unfolding(crate::specs::Declare::field))]
fn field(alloc: Global, tokens: &mut Cursor<'_>) -> Result<ParamTree, ReadError>
    ensures { Reads (spec.field tokens.old) result tokens.new }
{
    let found = param(alloc, tokens)?;
    tokens.expect(Sign::Semicolon)?;
    Ok(found)
}

fn begins_type(word: Word) -> bool
    ensures { result ≡ spec.begins_type word }
{
    matches!(word, Word::Name | Word::Key(Keyword::Int))
}

#[tactic(auto, unfolding(crate::specs::Declare::fields, hs_words::specs::Input::repeat))]
fn fields(alloc: Global, tokens: &mut Cursor<'_>) -> Result<Items<ParamTree>, ReadError>
    ensures { Reads (spec.fields tokens.old) result tokens.new }
{
    let mut found = Items::new(alloc);
    for _turn in 0..tokens.left() {
        if !begins_type(tokens.peek()) {
            return Ok(found);
        }
        found.push(field(alloc, tokens)?)?;
    }
    Ok(found)
}

/// A data type, from the word on, as all declarations below.
#[tactic(auto, unfolding(crate::specs::Declare::data_tree))]
pub fn data_tree(alloc: Global, tokens: &mut Cursor<'_>) -> Result<DataTree, ReadError>
    ensures { Reads (spec.data_tree tokens.old) result tokens.new }
{
    let at = tokens.place();
    tokens.skip();
    let name = name(alloc, tokens)?;
    tokens.expect(Sign::OpenBrace)?;
    let fields = fields(alloc, tokens)?;
    tokens.expect(Sign::CloseBrace)?;
    Ok(DataTree { name, fields, at })
}

// ---- predicates, entailments, lemmas

/// Names in angle brackets.
#[tactic(auto, unfolding(crate::specs::Declare::brackets))]
fn brackets(alloc: Global, tokens: &mut Cursor<'_>) -> Result<Items<Ident>, ReadError>
    ensures { Reads (spec.brackets tokens.old) result tokens.new }
{
    tokens.expect(Sign::Less)?;
    if tokens.sees(Sign::Greater) {
        tokens.skip();
        return Ok(Items::new(alloc));
    }
    let found = names(alloc, tokens)?;
    tokens.expect(Sign::Greater)?;
    Ok(found)
}

#[tactic(auto, unfolding(crate::specs::Declare::invariant))]
fn invariant(
    alloc: Global,
    tokens: &mut Cursor<'_>,
    depth: u32,
) -> Result<Option<Items<ItemTree>>, ReadError>
    ensures { Reads (spec.invariant depth tokens.old) result tokens.new }
{
    if !tokens.sees_key(Keyword::Inv) {
        return Ok(None);
    }
    tokens.skip();
    Ok(Some(conj(alloc, tokens, depth)?))
}

#[tactic(auto, unfolding(crate::specs::Declare::pred_tree))]
pub fn pred_tree(alloc: Global, tokens: &mut Cursor<'_>, depth: u32) -> Result<PredTree, ReadError>
    ensures { Reads (spec.pred_tree depth tokens.old) result tokens.new }
{
    let at = tokens.place();
    tokens.skip();
    let name = name(alloc, tokens)?;
    let params = brackets(alloc, tokens)?;
    tokens.expect(Sign::EqEq)?;
    let body = formula(alloc, tokens, depth)?;
    let inv = invariant(alloc, tokens, depth)?;
    tokens.expect(Sign::Semicolon)?;
    Ok(PredTree {
        name,
        params,
        body,
        inv,
        at,
    })
}

#[tactic(auto, unfolding(crate::specs::Declare::entail_tree))]
pub fn entail_tree(
    alloc: Global,
    tokens: &mut Cursor<'_>,
    depth: u32,
) -> Result<EntailTree, ReadError>
    ensures { Reads (spec.entail_tree depth tokens.old) result tokens.new }
{
    let at = tokens.place();
    tokens.skip();
    let left = formula(alloc, tokens, depth)?;
    tokens.expect(Sign::Turnstile)?;
    let right = formula(alloc, tokens, depth)?;
    tokens.expect(Sign::Semicolon)?;
    Ok(EntailTree { left, right, at })
}

#[tactic(auto, unfolding(crate::specs::Declare::lemma_tree))]
pub fn lemma_tree(
    alloc: Global,
    tokens: &mut Cursor<'_>,
    depth: u32,
) -> Result<LemmaTree, ReadError>
    ensures { Reads (spec.lemma_tree depth tokens.old) result tokens.new }
{
    let at = tokens.place();
    tokens.skip();
    let lemma = name(alloc, tokens)?;
    tokens.expect(Sign::Colon)?;
    tokens.expect_key(Keyword::SelfWord)?;
    tokens.expect(Sign::ColonColon)?;
    let pred = name(alloc, tokens)?;
    let params = brackets(alloc, tokens)?;
    tokens.expect(Sign::Arrow)?;
    let right = disjunct(alloc, tokens, depth)?;
    tokens.expect(Sign::Semicolon)?;
    Ok(LemmaTree {
        name: lemma,
        pred,
        params,
        right,
        at,
    })
}

// ---- methods

#[tactic(auto, unfolding(crate::specs::Declare::variant))]
fn variant(
    alloc: Global,
    tokens: &mut Cursor<'_>,
    depth: u32,
) -> Result<Option<ExprTree>, ReadError>
    ensures { Reads (spec.variant depth tokens.old) result tokens.new }
{
    if !tokens.sees_key(Keyword::Variant) {
        return Ok(None);
    }
    tokens.skip();
    Ok(Some(expr(alloc, tokens, depth)?))
}

#[tactic(auto, unfolding(crate::specs::Declare::pair))]
fn pair(alloc: Global, tokens: &mut Cursor<'_>, depth: u32) -> Result<PairSource, ReadError>
    ensures { Reads (spec.pair depth tokens.old) result tokens.new }
{
    let at = tokens.place();
    tokens.expect_key(Keyword::Requires)?;
    let pre = formula(alloc, tokens, depth)?;
    let variant = variant(alloc, tokens, depth)?;
    tokens.expect_key(Keyword::Ensures)?;
    let post = formula(alloc, tokens, depth)?;
    tokens.expect(Sign::Semicolon)?;
    Ok(PairSource {
        pre,
        variant,
        post,
        at,
    })
}

/// One pair or more.
#[tactic(auto, unfolding(crate::specs::Declare::pairs, hs_words::specs::Input::repeat))]
fn pairs(alloc: Global, tokens: &mut Cursor<'_>, depth: u32) -> Result<Items<PairSource>, ReadError>
    ensures { Reads (spec.pairs depth tokens.old) result tokens.new }
{
    let mut found = Items::new(alloc);
    found.push(pair(alloc, tokens, depth)?)?;
    for _turn in 0..tokens.left() {
        if !tokens.sees_key(Keyword::Requires) {
            return Ok(found);
        }
        found.push(pair(alloc, tokens, depth)?)?;
    }
    Ok(found)
}

/// Parameters with commas between.
#[tactic(auto, unfolding(crate::specs::Declare::param_list, hs_words::specs::Input::repeat))]
fn param_list(alloc: Global, tokens: &mut Cursor<'_>) -> Result<Items<ParamTree>, ReadError>
    ensures { Reads (spec.param_list tokens.old) result tokens.new }
{
    let mut found = Items::new(alloc);
    found.push(param(alloc, tokens)?)?;
    for _turn in 0..tokens.left() {
        if !tokens.sees(Sign::Comma) {
            return Ok(found);
        }
        tokens.skip();
        found.push(param(alloc, tokens)?)?;
    }
    Ok(found)
}

/// The parameters of a method, in parentheses.
#[tactic(auto, unfolding(crate::specs::Declare::params))]
fn params(alloc: Global, tokens: &mut Cursor<'_>) -> Result<Items<ParamTree>, ReadError>
    ensures { Reads (spec.params tokens.old) result tokens.new }
{
    tokens.expect(Sign::OpenParen)?;
    if tokens.sees(Sign::CloseParen) {
        tokens.skip();
        return Ok(Items::new(alloc));
    }
    let found = param_list(alloc, tokens)?;
    tokens.expect(Sign::CloseParen)?;
    Ok(found)
}

#[tactic(auto, unfolding(crate::specs::Declare::result_type))]
fn result_type(alloc: Global, tokens: &mut Cursor<'_>) -> Result<Option<TypeTree>, ReadError>
    ensures { Reads (spec.result_type tokens.old) result tokens.new }
{
    if !tokens.sees(Sign::Colon) {
        return Ok(None);
    }
    tokens.skip();
    Ok(Some(type_tree(alloc, tokens)?))
}

#[tactic(auto, unfolding(crate::specs::Declare::method_tree))]
pub fn method_tree(
    alloc: Global,
    tokens: &mut Cursor<'_>,
    depth: u32,
) -> Result<MethodSource, ReadError>
    ensures { Reads (spec.method_tree depth tokens.old) result tokens.new }
{
    let at = tokens.place();
    tokens.skip();
    let name = name(alloc, tokens)?;
    let params = params(alloc, tokens)?;
    let kind = result_type(alloc, tokens)?;
    let pairs = pairs(alloc, tokens, depth)?;
    let block = block(alloc, tokens, depth)?;
    Ok(MethodSource {
        name,
        params,
        result: kind,
        pairs,
        block,
        at,
    })
}
