//! What holds of all texts. The function does nothing: its contract states a law.

ghost use Rattle.hs_source.specs.Resolved.{TextsHaveOneAnswer};

use hs_lex::{faults_are_unique, tokens_are_unique, tokens_exclude_faults};
use hs_read::{sources_are_read, sources_are_unique};

/// A text has at most one normal form, and at most one refusal, and never both.
pub fn texts_have_one_answer()
    ensures { TextsHaveOneAnswer }
{
    tokens_are_unique();
    tokens_exclude_faults();
    faults_are_unique();
    sources_are_read();
    sources_are_unique();
}
