/// How far a search goes.
#[derive(Clone, Copy, Debug)]
pub struct Bounds {
    /// How many paid rules stand at most on a path of a derivation.
    pub rank: u32,
    /// How many places of the tree are looked at, at most.
    pub goals: u64,
    /// How many derivations are wanted, at least one.
    pub wanted: u32,
}

/// Why there is no derivation, or none was found.
#[derive(Debug, Drop)]
pub enum Cause<Q, O> {
    /// The tree has more places than are allowed.
    Goals,
    /// This question of a place of the tree has no answer.
    Spent(Q),
    /// There is no derivation of this rank, and at a place of the tree a paid choice found no rank left.
    Rank,
    /// There is no derivation of any rank, and this is to blame.
    Failed(O),
}

/// What a search answers.
#[derive(Debug, Drop)]
pub enum Answer<P, Q, O> {
    /// The first derivations, as many as are wanted or as there are: at least one.
    Valid(Vec<P>),
    /// No derivation was found.
    Unknown(Cause<Q, O>),
}
