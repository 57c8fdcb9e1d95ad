use crate::{Count, RebuildError, Reduced};

fn is_shared<T: Send + Sync>() {}

// Each type of this crate may go to another thread and be read by several.
fn counts_are_shared() {
    is_shared::<Count>();
    is_shared::<Reduced>();
    is_shared::<RebuildError>();
}
