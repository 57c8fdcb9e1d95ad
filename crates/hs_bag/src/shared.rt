use crate::{BagError, Stop};

fn is_shared<T: Send + Sync>() {}

// Each type of this crate may go to another thread and be read by several.
fn bags_are_shared() {
    is_shared::<BagError>();
    is_shared::<Stop>();
}
