use crate::{Fault, Limit, Named, Names, Numbering, Problem, Reading, Scope};

fn is_shared<T: Send + Sync>() {}

// Each type of this crate may go to another thread and be read by several.
fn numberings_are_shared() {
    is_shared::<Limit>();
    is_shared::<Problem>();
    is_shared::<Fault>();
    is_shared::<Named>();
    is_shared::<Scope>();
    is_shared::<Names>();
    is_shared::<Reading>();
    is_shared::<Numbering>();
}
