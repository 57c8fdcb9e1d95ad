use hs_pure::Valuation;

/// What an examination finds.
#[derive(Debug, Drop)]
pub enum Finding {
    /// The implication is true at all stacks.
    Implied,
    /// Values that make the left side true and the right side false. A variable that is not named is 0.
    Refuted(Valuation),
    /// Neither was found.
    Open,
}
