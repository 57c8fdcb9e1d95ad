use crate::WfError;

fn is_shared<T: Send + Sync>() {}

// The error may go to another thread and be read by several.
fn errors_are_shared() {
    is_shared::<WfError>();
}
