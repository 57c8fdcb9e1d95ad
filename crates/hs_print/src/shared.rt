use crate::{Line, Refusal, Tried, Why, Word};

fn is_shared<T: Send + Sync>() {}

// Each type of this crate may go to another thread and be read by several.
fn texts_are_shared() {
    is_shared::<Word>();
    is_shared::<Why>();
    is_shared::<Tried>();
    is_shared::<Refusal>();
    is_shared::<Line>();
}
