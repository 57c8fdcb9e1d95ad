/// A goal in a tree, and the rank that is left there.
#[derive(Debug, Drop)]
pub struct Place<G> {
    pub goal: G,
    pub rank: u32,
}
