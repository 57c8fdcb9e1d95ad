use hs_pure::Valuation;

/// What a unit question is answered.
#[derive(Debug, Drop)]
pub enum Settled {
    /// The implication is true at all stacks.
    Yes,
    /// Values that make the left side true and the right side false. A variable that is not named is 0.
    No(Valuation),
}
