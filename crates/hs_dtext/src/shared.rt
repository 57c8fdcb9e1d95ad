use crate::DTextError;

fn is_shared<T: Send + Sync>() {}

// Each type of this crate may go to another thread and be read by several.
fn texts_are_shared() {
    is_shared::<DTextError>();
}
