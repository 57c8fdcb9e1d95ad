//! Sources from their bytes.

ghost use Rattle.std.specs.Prelude.{◌≡◌, ◌<◌, ◌≤◌, ◌^◌, length, IfErr, IfOk, Ok};
ghost use Rattle.std.specs.List.{AllByRecursion};
ghost use Rattle.hs_lex.specs.Tokens.{HasTokens, IsSpan};
ghost use Rattle.hs_words.specs.Grammar.{Spells};
ghost use Rattle.hs_read.specs.Grammar.{IsSource};
ghost use Rattle.hs_norm.specs.Normal.{normal_of};
ghost use Rattle.hs_source.specs.Resolved.{literal_limit, IsResolved, HasCause, HasTreeCause};

use crate::LITERAL_LIMIT;
use crate::error::{SourceError, of_lexer, of_normal_form, of_reader};
use hs_lex::{LexError, Token, lex};
use hs_norm::{Resolved, normal};
use hs_read::{Source, read};
use std::alloc::Global;
use std::str;

// The tokens of a text.
fn tokens(alloc: Global, bytes: &[u8]) -> Result<Vec<Token>, SourceError>
    requires { length bytes.now < 2 ^ 32 }
    ensures found { IfOk result (λ tokens. HasTokens literal_limit bytes.now tokens.items) }
    ensures spans { IfOk result (λ tokens. AllByRecursion (IsSpan bytes.now) tokens.items) }
    ensures cause { IfErr result (HasCause bytes.now) }
{
    match lex(alloc, bytes, LITERAL_LIMIT) {
        Ok(tokens) => Ok(tokens),
        Err(error) => Err(of_lexer(error)),
    }
}

// The tree that the tokens of a text spell, which has at most one item a token.
fn tree(alloc: Global, text: &str, tokens: &[Token]) -> Result<Source, SourceError>
    requires len { length text.now < 2 ^ 32 }
    requires tokens { HasTokens literal_limit text.now tokens.now }
    requires spans { AllByRecursion (IsSpan text.now) tokens.now }
    ensures found { IfOk result (Spells (IsSource 64) text.now tokens.now) }
    ensures few { IfOk result (λ tree. length tree.items ≤ length text.now) }
    ensures cause { IfErr result (HasCause text.now) }
{
    match read(alloc, tokens, text) {
        Ok(tree) => Ok(tree),
        Err(error) => Err(of_reader(error)),
    }
}

// The normal form of a tree.
#[tactic(auto, using(crate::proofs::Causes::normal_cause, crate::proofs::Counts::few_entailments, crate::proofs::Counts::few_preds, crate::proofs::Counts::few_nodes, crate::proofs::Counts::named_preds))]
fn normal_form(alloc: Global, tree: &Source) -> Result<Resolved, SourceError>
    requires { length tree.now.items < 2 ^ 32 }
    ensures found { IfOk result (λ resolved. normal_of tree.now ≡ Ok resolved) }
    ensures few { IfOk result (λ resolved. length resolved.entailments ≤ length tree.now.items) }
    ensures few_preds { IfOk result (λ resolved. length resolved.defs.preds ≤ length tree.now.items) }
    ensures few_nodes { IfOk result (λ resolved. length resolved.defs.nodes ≤ length tree.now.items) }
    ensures named { IfOk result (λ resolved. length resolved.pred_names ≡ length resolved.defs.preds) }
    ensures cause { IfErr result (HasTreeCause tree.now) }
{
    match normal(alloc, tree) {
        Ok(resolved) => Ok(resolved),
        Err(error) => Err(of_normal_form(error)),
    }
}

#[tactic(auto, using(crate::proofs::Causes::tree_cause))]
fn resolve_text(alloc: Global, text: &str) -> Result<(Source, Resolved), SourceError>
    requires { length text.now < 2 ^ 32 }
    ensures found { IfOk result (λ r. IsResolved text.now r.0 r.1) }
    ensures few { IfOk result (λ r. length r.1.entailments ≤ length text.now) }
    ensures few_preds { IfOk result (λ r. length r.1.defs.preds ≤ length text.now) }
    ensures few_nodes { IfOk result (λ r. length r.1.defs.nodes ≤ length text.now) }
    ensures named { IfOk result (λ r. length r.1.pred_names ≡ length r.1.defs.preds) }
    ensures cause { IfErr result (HasCause text.now) }
{
    let tokens = tokens(alloc, text.as_bytes())?;
    let tree = tree(alloc, text, &tokens)?;
    let resolved = normal_form(alloc, &tree)?;
    Ok((tree, resolved))
}

/// The tree that a source of fewer than 2^32 bytes spells and its normal form, or the first fault of the source.
#[tactic(auto, using(crate::proofs::Causes::utf8_cause))]
pub fn resolve(alloc: Global, bytes: &[u8]) -> Result<(Source, Resolved), SourceError>
    requires { length bytes.now < 2 ^ 32 }
    // The tokens of the text spell the tree, whose normal form this is.
    ensures found { IfOk result (λ r. IsResolved bytes.now r.0 r.1) }
    // A source has no more entailments than bytes.
    ensures few { IfOk result (λ r. length r.1.entailments ≤ length bytes.now) }
    // No more predicates either, and each has its source names.
    ensures few_preds { IfOk result (λ r. length r.1.defs.preds ≤ length bytes.now) }
    // Nor has it more data types.
    ensures few_nodes { IfOk result (λ r. length r.1.defs.nodes ≤ length bytes.now) }
    ensures named { IfOk result (λ r. length r.1.pred_names ≡ length r.1.defs.preds) }
    // The text has this fault first, unless memory ran out.
    ensures cause { IfErr result (HasCause bytes.now) }
{
    match str::from_utf8(bytes) {
        Ok(text) => resolve_text(alloc, text),
        Err(fault) => Err(of_lexer(LexError::NotUtf8(fault.valid_up_to() as u32))),
    }
}
