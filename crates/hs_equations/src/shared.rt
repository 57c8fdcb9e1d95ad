use crate::Finding;

fn is_shared<T: Send + Sync>() {}

// A finding may go to another thread and be read by several.
fn findings_are_shared() {
    is_shared::<Finding>();
}
