use hs_core::At;
use hs_goal::Cause;
use hs_node::Derivation;
use sqlite_items::Items;

/// What the verifier says of a pair.
#[derive(Drop)]
pub enum HipAnswer {
    /// Right nodes of which the last concludes the start of the pair, and no claims.
    Accepted(Derivation),
    /// The goal of this state has no derivation that was found, for this cause; at a call that of no pair has, for a
    /// cause each.
    Unknown(At, Items<Cause>),
    /// As many states as the limit of goals were taken before this one.
    States(At),
    /// New numbers would pass their bound at this state.
    Numbers(At),
}
