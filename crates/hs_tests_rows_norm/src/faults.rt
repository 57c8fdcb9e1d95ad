//! What refuses a row.

use hs_lex::LexError;
use hs_norm::NormError;
use hs_pure::NoMemory;
use hs_read::ReadError;

fn push_at(out: &mut String, at: u32, what: &str) -> Result<(), NoMemory> {
    write!(out, "  byte {at}: {what}\n")?;
    Ok(())
}

/// A text that has no tokens.
pub fn push_lex_error(out: &mut String, error: &LexError) -> Result<(), NoMemory> {
    match error {
        LexError::NotUtf8(at) => push_at(out, *at, "not UTF-8"),
        LexError::BadByte(at) => push_at(out, *at, "bad byte"),
        LexError::LiteralWide(at) => push_at(out, *at, "literal too large"),
        LexError::NameLong(at) => push_at(out, *at, "name too long"),
        LexError::Memory => Err(NoMemory),
    }
}

/// Tokens that have no tree.
pub fn push_read_error(out: &mut String, error: &ReadError) -> Result<(), NoMemory> {
    match error {
        ReadError::Expected(at, what) => {
            write!(out, "  byte {at}: expected another, at {what:?}\n")?;
            Ok(())
        }
        ReadError::TooDeep(at) => push_at(out, *at, "too deep"),
        ReadError::Memory => Err(NoMemory),
    }
}

/// A tree that has no normal form.
pub fn push_norm_error(out: &mut String, error: &NormError) -> Result<(), NoMemory> {
    match error {
        NormError::Unknown(name) => write!(out, "  unknown {name}\n")?,
        NormError::Twice(name) => write!(out, "  twice {name}\n")?,
        NormError::Kind(at) => push_at(out, *at, "kind")?,
        NormError::Arity(at) => push_at(out, *at, "arity")?,
        NormError::TooMany(at, limit) => write!(out, "  byte {at}: too many {limit:?}\n")?,
        NormError::Shape(at) => push_at(out, *at, "shape")?,
        NormError::Memory => return Err(NoMemory),
    }
    Ok(())
}
