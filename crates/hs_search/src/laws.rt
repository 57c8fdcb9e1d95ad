//! What holds of all answers. The function does nothing: its contract states a law.

ghost use Rattle.hs_search.specs.Laws.{SearchIsComplete};

/// Where the tree has at most so many goals as the limit says and no spent question, the answer is valid exactly where
/// a derivation has at most the rank, and else the cause is the rank, or that no derivation has any.
pub fn search_is_complete()
    ensures { SearchIsComplete }
{}
