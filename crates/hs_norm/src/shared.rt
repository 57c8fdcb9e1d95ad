use crate::Param;

fn is_shared<T: Send + Sync>() {}

// The parameter of a method may go to another thread and be read by several.
fn params_are_shared() {
    is_shared::<Param>();
}
