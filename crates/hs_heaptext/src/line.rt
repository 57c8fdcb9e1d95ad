//! Parts of a text.

ghost use Rattle.std.specs.Prelude.{◌≡◌, ◌++◌, ℕ, List, MatchOption};
ghost use Rattle.hs_heaptext.specs.Lines.{CutsAt, FirstLine};

const LINE_FEED: u8 = 10;

/// What stands before the first byte `end`, and what stands from it on; all, and nothing, where there is none.
pub fn cut(text: &[u8], end: u8) -> (&[u8], &[u8])
    ensures { CutsAt end text.now result.0.now result.1.now }
{
    let len = text.iter().take_while(|b| **b != end).count();
    text.split_at(len)
}

/// The first line of a text, and what stands behind its end.
pub fn first_line(text: &[u8]) -> Option<(&[u8], &[u8])>
    ensures { MatchOption result ((line rest : List ℕ) → ¬ (FirstLine text.now line rest)) (λ p. FirstLine text.now p.0.now p.1.now) }
{
    let (line, behind) = cut(text, LINE_FEED);
    let (_, rest) = behind.split_first()?;
    Some((line, rest))
}

/// What stands behind the front of a text.
pub fn behind<'a>(text: &'a [u8], front: &[u8]) -> Option<&'a [u8]>
    ensures { MatchOption result ((rest : List ℕ) → ¬ (text.now ≡ front.now ++ rest)) (λ rest. text.now ≡ front.now ++ rest.now) }
{
    text.strip_prefix(front)
}
