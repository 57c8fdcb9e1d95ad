//! What is left to do.

use hs_core::{At, PRule};

/// The rule taken at a state: the number of the node of its goal if it asks one, and how many further premises it has.
#[derive(Clone, Copy)]
pub struct Taken {
    pub rule: PRule,
    pub goal: Option<u32>,
    pub further: usize,
}

/// A state to visit, or, where its rule was taken, to conclude from its further premises.
#[derive(Drop)]
pub struct Task {
    pub at: At,
    pub taken: Option<Taken>,
}
