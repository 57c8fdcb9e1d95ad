use crate::{Field, Variable};

fn is_shared<T: Send + Sync>() {}

// Each type of this crate that holds no reference may go to another thread and be read by several.
fn variables_are_shared() {
    is_shared::<Variable>();
    is_shared::<Field>();
}
