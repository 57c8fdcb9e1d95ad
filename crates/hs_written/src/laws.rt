//! Laws for the layers above. Each is the contract of a function without a body.

ghost use Rattle.hs_written.specs.Laws.{WrittenIsRead};

/// A formula that can be written by numbers is what `numbered` answers for each tree that writes it.
pub fn written_is_read()
    ensures { WrittenIsRead }
{}
