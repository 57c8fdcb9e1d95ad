use crate::{Claim, Derivation, Judgement, Node, Rule};

fn is_shared<T: Send + Sync>() {}

// Each type of this crate may go to another thread and be read by several.
fn derivations_are_shared() {
    is_shared::<Judgement>();
    is_shared::<Rule>();
    is_shared::<Claim>();
    is_shared::<Node>();
    is_shared::<Derivation>();
}
