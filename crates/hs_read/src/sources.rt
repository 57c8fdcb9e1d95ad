//! A source of all the tokens.

ghost use Rattle.std.specs.Prelude.{◌≡◌, ◌<◌, ◌^◌, length, IfOk};
ghost use Rattle.std.specs.List.{AllByRecursion};
ghost use Rattle.hs_lex.specs.Tokens.{IsSpan};
ghost use Rattle.hs_words.specs.Grammar.{Spells};
ghost use Rattle.hs_words.specs.Input.{Gives, Reads, whole};
ghost use Rattle.hs_read.specs.Written.{HaveDisjuncts};
ghost use Rattle.hs_read.specs.Declare as spec;
ghost use Rattle.hs_read.specs.Grammar.{IsSource};

use crate::declarations::{data_tree, entail_tree, lemma_tree, method_tree, pred_tree};
use hs_lex::Token;
use hs_tree::{Source, SourceItem};
use hs_words::{Cursor, Keyword, ReadError, Word};
use sqlite_items::Items;
use std::alloc::Global;

/// The levels of nesting that a source may have.
const MAX_NESTING: u32 = 64;

fn begins_item(word: Word) -> bool
    ensures { result ≡ spec.begins_item word }
{
    matches!(
        word,
        Word::Key(Keyword::Data)
            | Word::Key(Keyword::Pred)
            | Word::Key(Keyword::Entail)
            | Word::Key(Keyword::Method)
            | Word::Key(Keyword::Lemma)
    )
}

#[tactic(auto, unfolding(crate::specs::Declare::source_item))]
fn source_item(alloc: Global, tokens: &mut Cursor<'_>, depth: u32) -> Result<SourceItem, ReadError>
    ensures { Reads (spec.source_item depth tokens.old) result tokens.new }
{
    match tokens.peek() {
        Word::Key(Keyword::Data) => Ok(SourceItem::Node(data_tree(alloc, tokens)?)),
        Word::Key(Keyword::Pred) => Ok(SourceItem::Pred(pred_tree(alloc, tokens, depth)?)),
        Word::Key(Keyword::Entail) => Ok(SourceItem::Entail(entail_tree(alloc, tokens, depth)?)),
        Word::Key(Keyword::Method) => Ok(SourceItem::Method(method_tree(alloc, tokens, depth)?)),
        Word::Key(Keyword::Lemma) => Ok(SourceItem::Lemma(lemma_tree(alloc, tokens, depth)?)),
        _ => Err(tokens.refuse()),
    }
}

#[tactic(auto, unfolding(crate::specs::Declare::source, hs_words::specs::Input::repeat))]
fn source(alloc: Global, tokens: &mut Cursor<'_>, depth: u32) -> Result<Source, ReadError>
    ensures { Reads (spec.source depth tokens.old) result tokens.new }
{
    let mut items = Items::new(alloc);
    for _turn in 0..tokens.left() {
        if !begins_item(tokens.peek()) {
            return Ok(Source { items });
        }
        items.push(source_item(alloc, tokens, depth)?)?;
    }
    Ok(Source { items })
}

#[tactic(auto, unfolding(hs_words::specs::Input::whole))]
fn all(alloc: Global, tokens: &[Token], text: &str) -> Result<Source, ReadError>
    requires len { length text.now < 2 ^ 32 }
    requires tokens { AllByRecursion (IsSpan text.now) tokens.now }
    ensures { Gives (λ tree. tree) result (whole (spec.source 64) text.now tokens.now) }
{
    let mut rest = Cursor::new(text, tokens);
    let tree = source(alloc, &mut rest, MAX_NESTING)?;
    rest.expect_end()?;
    Ok(tree)
}

/// The source that all the tokens of a text spell. Nesting is at most 64 levels.
///
/// The error is at the token at which reading stops, at the text's end where it needs one more token, at
/// the token that opens a level too many, or `Memory`.
#[tactic(auto, using(crate::proofs::Found::source_found, crate::proofs::Written::source_written))]
pub fn read(alloc: Global, tokens: &[Token], text: &str) -> Result<Source, ReadError>
    requires len { length text.now < 2 ^ 32 }
    requires tokens { AllByRecursion (IsSpan text.now) tokens.now }

    // The grammar spells the tree by these tokens.
    ensures found { IfOk result (Spells (IsSource 64) text.now tokens.now) }
    // Each formula of it has a disjunct.
    ensures written { IfOk result HaveDisjuncts }
    // The tree, or the place at which reading stops.
    ensures exact { Gives (λ tree. tree) result (whole (spec.source 64) text.now tokens.now) }
{
    all(alloc, tokens, text)
}
