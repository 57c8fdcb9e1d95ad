use crate::InvAnswer;

fn is_shared<T: Send + Sync>() {}

// An answer may go to another thread and be read by several.
fn answers_are_shared() {
    is_shared::<InvAnswer>();
}
