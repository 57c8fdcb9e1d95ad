use crate::{Fault, Pieces, Rest, Stop};

fn is_shared<T: Send + Sync>() {}

// Each type of this crate may go to another thread and be read by several.
fn lines_are_shared() {
    is_shared::<Fault>();
    is_shared::<Stop>();
    is_shared::<Rest<'static>>();
    is_shared::<Pieces<'static>>();
}
