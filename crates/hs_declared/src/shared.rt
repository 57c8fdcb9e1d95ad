use crate::{Declarations, Directory, Table, VarType};

fn is_shared<T: Send + Sync>() {}

// Each type of this crate may go to another thread and be read by several.
fn declarations_are_shared() {
    is_shared::<VarType>();
    is_shared::<Directory>();
    is_shared::<Table>();
    is_shared::<Declarations>();
}
