//! Sources in normal form, and what refuses them.
ghost use Rattle.std.specs.Prelude.{◌<◌, ◌^◌, length, IfOk};

use hs_lex::lex;
use hs_norm::{NormError, Resolved, normal};
use hs_read::{Source, read};
use std::alloc::Global;
use std::test::Fail;

// The most bytes of a source.
pub const MOST_BYTES: usize = 1 << 20;

fn source(alloc: Global, text: &str) -> Result<Source, Fail>
    ensures { IfOk result (λ s. length s.items < 2 ^ 32) }
{
    if text.len() > MOST_BYTES {
        return Err(Fail::from("a short text"));
    }
    let tokens = lex(alloc, text.as_bytes(), u128::MAX)?;
    let source = read(alloc, &tokens, text)?;
    if source.items.len() > MOST_BYTES {
        return Err(Fail::from("few items"));
    }
    Ok(source)
}

pub fn normal_of(alloc: Global, text: &str) -> Result<Result<Resolved, NormError>, Fail> {
    let source = source(alloc, text)?;
    Ok(normal(alloc, &source))
}
