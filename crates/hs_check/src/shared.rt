use crate::{NodeAnswer, Reason, Spent, Verdict};

fn is_shared<T: Send + Sync>() {}

// Each type of this crate may go to another thread and be read by several.
fn verdicts_are_shared() {
    is_shared::<Reason>();
    is_shared::<Spent>();
    is_shared::<NodeAnswer>();
    is_shared::<Verdict>();
}
