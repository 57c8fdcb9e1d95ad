//! Laws of counts, for the proofs of the layers above. Each is the contract of a function without a body.

ghost use Rattle.hs_counts.specs.Laws.{CountsAreSaid, NothingElseIsSaid, RebuiltByCounts, RightItems, ItemsAreBelow};

/// Right counts say how often their elements are in the bags.
pub fn counts_are_said()
    ensures { CountsAreSaid }
{}

/// What is no element of a bag variable is not in its bag.
pub fn nothing_else_is_said()
    ensures { NothingElseIsSaid }
{}

/// The counts of a layout say the bags that are rebuilt of it.
pub fn rebuilt_by_counts()
    ensures { RebuiltByCounts }
{}

/// Where the counts of a layout are right, those of its list are.
pub fn right_items()
    ensures { RightItems }
{}

/// The numbers of a reduction's counts are below the first number after its new ones.
pub fn items_are_below()
    ensures { ItemsAreBelow }
{}
