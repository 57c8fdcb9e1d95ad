//! Values in a line, each after a blank.

ghost use Rattle.std.specs.Prelude.{◌≡◌, ◌∷◌, List, ℤ, IfOk, MatchOption};
ghost use Rattle.hs_heaptext.specs.Values.{IsSmall, AreSmall, IsNextValue, values_text};

use crate::line::cut;
use crate::number::value;
use hs_pure::NoMemory;
use sqlite_items::Items;
use std::alloc::Global;

/// What stands before each value of a line.
pub const BLANK: u8 = 32;

/// The value behind the blank at the front of a text, and what stands behind it.
fn next_value(text: &[u8]) -> Option<(i128, &[u8])>
    ensures { MatchOption result ((x : ℤ) (xs : List ℤ) → IsSmall x → ¬ (text.now ≡ values_text (x ∷ xs))) (λ p. IsNextValue text.now p.0 p.1.now) }
{
    let (blank, behind) = text.split_first()?;
    if *blank != BLANK {
        return None;
    }
    let (word, rest) = cut(behind, BLANK);
    Some((value(word)?, rest))
}

/// The values that a text has, each after a blank.
pub fn values(alloc: Global, text: &[u8]) -> Result<Option<Items<i128>>, NoMemory>
    ensures { IfOk result (λ found. MatchOption found ((xs : List ℤ) → AreSmall xs → ¬ (text.now ≡ values_text xs)) (λ xs. AreSmall xs × (text.now ≡ values_text xs))) }
{
    let mut all = Items::new(alloc);
    let mut rest = text;
    while !rest.is_empty() {
        let Some((value, behind)) = next_value(rest) else {
            return Ok(None);
        };
        all.push(value)?;
        rest = behind;
    }
    Ok(Some(all))
}
