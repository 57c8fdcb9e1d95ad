//! The signs and their spelling.

ghost use Rattle.std.specs.Prelude.{◌≡◌};
ghost use Rattle.hs_lex.specs.Scan as spec;

use crate::token::Sign;

/// The spelling of each sign. A longer one comes before its own beginning.
const SIGNS: [(&[u8], Sign); 26] = [
    (b"::", Sign::ColonColon),
    (b"|-", Sign::Turnstile),
    (b"==", Sign::EqEq),
    (b"!=", Sign::NotEq),
    (b"<=", Sign::LessEq),
    (b">=", Sign::GreaterEq),
    (b"&&", Sign::AndAnd),
    (b"||", Sign::OrOr),
    (b"->", Sign::Arrow),
    (b"{", Sign::OpenBrace),
    (b"}", Sign::CloseBrace),
    (b"(", Sign::OpenParen),
    (b")", Sign::CloseParen),
    (b"<", Sign::Less),
    (b">", Sign::Greater),
    (b",", Sign::Comma),
    (b";", Sign::Semicolon),
    (b".", Sign::Dot),
    (b":", Sign::Colon),
    (b"=", Sign::Equals),
    (b"+", Sign::Plus),
    (b"-", Sign::Minus),
    (b"*", Sign::Star),
    (b"&", Sign::Amp),
    (b"|", Sign::Bar),
    (b"!", Sign::Bang),
];

/// The longest sign at the front of a text, and its length.
#[tactic(auto, unfolding(crate::specs::Scan::sign_at))]
pub fn sign(text: &[u8]) -> Option<(Sign, usize)>
    ensures { result ≡ spec.sign_at text.now }
{
    let mut signs: &[(&[u8], Sign)] = &SIGNS;
    while let [(spelling, sign), rest @ ..] = signs {
        if text.starts_with(spelling) {
            return Some((*sign, spelling.len()));
        }
        signs = rest;
    }
    None
}
