use crate::{Relation, Way};

fn is_shared<T: Send + Sync>() {}

// Each type of this crate may go to another thread and be read by several.
fn parts_are_shared() {
    is_shared::<Relation>();
    is_shared::<Way>();
}
