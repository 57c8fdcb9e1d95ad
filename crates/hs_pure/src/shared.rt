use crate::{Bag, Lin, NoMemory, Pure, Valuation, Var};

fn is_shared<T: Send + Sync>() {}

// Each type of this crate may go to another thread and be read by several.
fn formulas_are_shared() {
    is_shared::<Var>();
    is_shared::<Lin>();
    is_shared::<Bag>();
    is_shared::<Pure>();
    is_shared::<Valuation>();
    is_shared::<NoMemory>();
}
