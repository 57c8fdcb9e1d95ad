use crate::{Proof, Step};

fn is_shared<T: Send + Sync>() {}

// Each type of this crate may go to another thread and be read by several.
fn steps_are_shared() {
    is_shared::<Step>();
    is_shared::<Proof>();
}
