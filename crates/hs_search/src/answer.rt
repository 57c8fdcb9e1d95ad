use hs_erule::Proof;
use hs_goal::Cause;
use sqlite_items::Items;

/// What the search says of a goal.
#[derive(Debug, Drop)]
pub enum SleekAnswer {
    /// The first proofs of the goal, at least one.
    Valid(Items<Proof>),
    /// Why there are none, or none was found.
    Unknown(Cause),
}
