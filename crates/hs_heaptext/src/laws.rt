//! Laws of heap texts, for the layers above.

ghost use Rattle.hs_heaptext.specs.Laws.{TextsStateOnce, HeapTextsHaveNoBadLine, BadLinesAreUnique};

/// A text states at most one list of arguments and one heap.
pub fn texts_state_once()
    ensures { TextsStateOnce }
{}

/// A text that states arguments and a heap has no bad line.
pub fn heap_texts_have_no_bad_line()
    ensures { HeapTextsHaveNoBadLine }
{}

/// A text has at most one first bad line.
pub fn bad_lines_are_unique()
    ensures { BadLinesAreUnique }
{}
