//! Why a source has no normal form.

ghost use Rattle.std.specs.Prelude.{◌≡◌};
ghost use Rattle.hs_source.specs.Refusals as spec;

use hs_lex::LexError;
use hs_norm::NormError;
use hs_print::Refusal;
use hs_read::{ReadError, What};
use thiserror::Error;

#[derive(Debug, Drop, Error)]
pub enum SourceError {
    #[error("refused")]
    Refused(Refusal),
    #[error("out of memory")]
    Memory,
}

/// What the lexer's error is to the whole.
pub fn of_lexer(error: LexError) -> SourceError
    ensures { result ≡ spec.of_lexer error }
{
    match error {
        LexError::NotUtf8(at) => SourceError::Refused(Refusal::NotUtf8(at)),
        LexError::BadByte(at) => SourceError::Refused(Refusal::BadByte(at)),
        LexError::LiteralWide(at) => SourceError::Refused(Refusal::LiteralWide(at)),
        LexError::NameLong(at) => SourceError::Refused(Refusal::NameLong(at)),
        LexError::Memory => SourceError::Memory,
    }
}

/// What the reader's error is to the whole.
pub fn of_reader(error: ReadError) -> SourceError
    ensures { result ≡ spec.of_reader error }
{
    match error {
        ReadError::Expected(at, What::Token) => SourceError::Refused(Refusal::Unexpected(at)),
        ReadError::Expected(at, What::End) => SourceError::Refused(Refusal::UnexpectedEnd(at)),
        ReadError::TooDeep(at) => SourceError::Refused(Refusal::TooDeep(at)),
        ReadError::Memory => SourceError::Memory,
    }
}

/// What the normal form's error is to the whole.
pub fn of_normal_form(error: NormError) -> SourceError
    ensures { result ≡ spec.of_normal_form error }
{
    match error {
        NormError::Unknown(name) => SourceError::Refused(Refusal::Unknown(name)),
        NormError::Twice(name) => SourceError::Refused(Refusal::Twice(name)),
        NormError::Kind(at) => SourceError::Refused(Refusal::Kind(at)),
        NormError::Arity(at) => SourceError::Refused(Refusal::Arity(at)),
        NormError::TooMany(at, _) => SourceError::Refused(Refusal::TooMany(at)),
        NormError::Shape(at) => SourceError::Refused(Refusal::Shape(at)),
        NormError::Memory => SourceError::Memory,
    }
}
