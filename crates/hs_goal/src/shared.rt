use crate::{Cause, Classes, ERule, Goal, Limits, Obligation, Question};

fn is_shared<T: Send + Sync>() {}

// Each type of this crate may go to another thread and be read by several.
fn goals_are_shared() {
    is_shared::<Goal>();
    is_shared::<ERule>();
    is_shared::<Question>();
    is_shared::<Obligation>();
    is_shared::<Cause>();
    is_shared::<Limits>();
    is_shared::<Classes>();
}
