//! The tokens of a text, one piece after another.

ghost use Rattle.std.specs.Prelude.{◌≡◌, ◌<◌, ◌+◌, ◌^◌, ◌++◌, length, IfErr, IfOk, OnOk};
ghost use Rattle.std.specs.List.{AllByRecursion};
ghost use Rattle.hs_lex.specs.Scan.{Gives, token_of, tokens_from};
ghost use Rattle.hs_lex.specs.Tokens.{HasLexCause, HasTokens, IsSpan};

use crate::error::LexError;
use crate::piece::{Piece, piece_at};
use crate::token::Token;
use std::alloc::{AllocFailed, Global};
use std::str;

/// Adds the token that is a piece, if it is one.
fn add(tokens: &mut Vec<Token>, piece: Piece, at: u32) -> Result<(), AllocFailed<Token>>
    requires { at + piece.len < 2 ^ 32 }
    ensures { OnOk result (tokens.new.items ≡ tokens.old.items ++ token_of at piece) }
{
    if let Some(kind) = piece.kind {
        tokens.push(Token {
            kind,
            at,
            end: at + piece.len as u32,
        })?;
    }
    Ok(())
}

/// The tokens of a text that is UTF-8.
fn scan(alloc: Global, text: &[u8], top: u128) -> Result<Vec<Token>, LexError>
    requires { length text.now < 2 ^ 32 }
    ensures { Gives (λ v. v.items) result (tokens_from top 0 0 text.now) }
{
    let mut tokens = Vec::new(alloc);
    let mut rest = text;
    while !rest.is_empty() {
        let at = (text.len() - rest.len()) as u32;
        let piece = piece_at(rest, at, top)?;
        add(&mut tokens, piece, at)?;
        rest = rest.split_at(piece.len).1;
    }
    Ok(tokens)
}

/// The tokens of a text, in order. A number is at most `top`.
///
/// The error is the first fault of the text, or `Memory`.
#[tactic(auto, using(crate::proofs::Found::scan_found, crate::proofs::Found::scan_cause, crate::proofs::Found::scan_spans))]
pub fn lex(alloc: Global, bytes: &[u8], top: u128) -> Result<Vec<Token>, LexError>
    requires { length bytes.now < 2 ^ 32 }
    // These are the tokens of the text.
    ensures found { IfOk result (λ v. HasTokens top bytes.now v.items) }
    // The text has this fault first, unless memory ran out.
    ensures cause { IfErr result (HasLexCause top bytes.now) }
    // Each token is cut from the text.
    ensures spans { IfOk result (λ v. AllByRecursion (IsSpan bytes.now) v.items) }
{
    if let Err(fault) = str::from_utf8(bytes) {
        return Err(LexError::NotUtf8(fault.valid_up_to() as u32));
    }
    scan(alloc, bytes, top)
}
