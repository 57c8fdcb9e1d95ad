//! Laws for the layers above. Each is the contract of a function without a body.

ghost use Rattle.hs_numbering.specs.Laws.{LeastIsFirst};

/// The fault that is answered is one of the list, and none of the list is before it. None is answered only
/// of the empty list.
pub fn least_is_first()
    ensures { LeastIsFirst }
{}
