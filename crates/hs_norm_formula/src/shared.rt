use crate::{Entry, NormError};

fn is_shared<T: Send + Sync>() {}

// Each type of this crate may go to another thread and be read by several.
fn forms_are_shared() {
    is_shared::<Entry>();
    is_shared::<NormError>();
}
