use crate::{Entailment, PairTree};

fn is_shared<T: Send + Sync>() {}

// Each type of this crate may go to another thread and be read by several.
fn claims_are_shared() {
    is_shared::<Entailment>();
    is_shared::<PairTree>();
}
