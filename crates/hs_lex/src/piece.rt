//! What stands at the front of a text.

ghost use Rattle.std.specs.Prelude.{◌≡◌, ◌<◌, ◌≤◌, ◌^◌, length, IfOk, IfSome, IfNone};
ghost use Rattle.std.specs.Str.Parse.{AllDigits, digits_value};
ghost use Rattle.hs_lex.specs.Scan as spec;
ghost use Rattle.hs_lex.specs.Tokens as bytes;

use crate::error::LexError;
use crate::sign::sign;
use crate::token::TokenKind;

/// The longest name.
const NAME_LEN: usize = 64;

/// What stands at the front of a text and how many bytes it takes: a token, or what is between tokens.
#[derive(Clone, Copy, Debug)]
pub struct Piece {
    pub kind: Option<TokenKind>,
    pub len: usize,
}

fn is_blank(byte: u8) -> bool
    ensures { result ≡ bytes.is_blank byte }
{
    byte == b' ' || byte == b'\t' || byte == b'\r' || byte == b'\n'
}

fn is_in_name(byte: u8) -> bool
    ensures { result ≡ bytes.is_in_name byte }
{
    byte.is_ascii_alphanumeric() || byte == b'_'
}

/// The length of the line at the front, without its end.
fn line_len(text: &[u8]) -> usize
    ensures { result ≡ spec.front_len bytes.is_in_line text.now }
{
    text.iter().take_while(|b| **b != b'\n').count()
}

fn name_len(text: &[u8]) -> usize
    ensures { result ≡ spec.front_len bytes.is_in_name text.now }
{
    text.iter().take_while(|b| is_in_name(**b)).count()
}

fn number_len(text: &[u8]) -> usize
    ensures { result ≡ spec.front_len bytes.is_digit text.now }
{
    text.iter().take_while(|b| b.is_ascii_digit()).count()
}

/// The number of the digits, if it is not above `top`.
fn number(digits: &[u8], top: u128) -> Option<u128>
    requires { AllDigits 10 digits.now }
    ensures some { IfSome result (λ n. (n ≡ digits_value 10 digits.now) × (n ≤ top)) }
    ensures none { IfNone result (top < digits_value 10 digits.now) }
{
    let mut number: u128 = 0;
    for digit in digits {
        let tens = number.checked_mul(10)?;
        let next = tens.checked_add(u128::from(*digit - b'0'))?;
        if next > top {
            return None;
        }
        number = next;
    }
    Some(number)
}

/// What stands at the front of a text, from the offset `at` on.
#[tactic(auto, unfolding(crate::specs::Scan::piece_at))]
pub fn piece_at(text: &[u8], at: u32, top: u128) -> Result<Piece, LexError>
    requires { 0 < length text.now }
    ensures value { result ≡ spec.piece_at top at text.now }
    ensures within { IfOk result (λ p. (0 < p.len) × (p.len ≤ length text.now)) }
{
    let first = text[0];
    if is_blank(first) {
        Ok(Piece { kind: None, len: 1 })
    } else if text.starts_with(b"//") {
        Ok(Piece {
            kind: None,
            len: line_len(text),
        })
    } else if first == b'_' {
        Ok(Piece {
            kind: Some(TokenKind::Hole),
            len: 1,
        })
    } else if first.is_ascii_alphabetic() {
        name(text, at)
    } else if first.is_ascii_digit() {
        literal(text, at, top)
    } else {
        match sign(text) {
            Some((sign, len)) => Ok(Piece {
                kind: Some(TokenKind::Sign(sign)),
                len,
            }),
            None => Err(LexError::BadByte(at)),
        }
    }
}

fn name(text: &[u8], at: u32) -> Result<Piece, LexError>
    ensures value { result ≡ spec.name_at at text.now }
{
    let len = name_len(text);
    if len > NAME_LEN {
        return Err(LexError::NameLong(at));
    }
    Ok(Piece {
        kind: Some(TokenKind::Name),
        len,
    })
}

fn literal(text: &[u8], at: u32, top: u128) -> Result<Piece, LexError>
    ensures value { result ≡ spec.number_at top at text.now }
{
    let len = number_len(text);
    let Some(number) = number(&text[..len], top) else {
        return Err(LexError::LiteralWide(at));
    };
    Ok(Piece {
        kind: Some(TokenKind::Number(number)),
        len,
    })
}
