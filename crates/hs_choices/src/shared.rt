use crate::{AskError, Spent};

fn is_shared<T: Send + Sync>() {}

// Each type of this crate may go to another thread and be read by several.
fn errors_are_shared() {
    is_shared::<Spent>();
    is_shared::<AskError>();
}
