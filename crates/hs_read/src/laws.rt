//! What holds of all tokens. The functions do nothing: each contract states a law.

ghost use Rattle.hs_read.specs.Laws.{SourcesAreRead, SourcesAreUnique, SourcesHaveDisjuncts};

/// A source that the grammar has within the nesting is read: nothing of it is refused.
pub fn sources_are_read()
    ensures { SourcesAreRead }
{}

/// Tokens spell at most one source.
pub fn sources_are_unique()
    ensures { SourcesAreUnique }
{}

/// Each formula of a source that tokens spell has a disjunct.
pub fn sources_have_disjuncts()
    ensures { SourcesHaveDisjuncts }
{}
