//! What the types of every layer share: texts that contracts see as the list of their bytes, and the error of want of
//! memory.
#![tactic(auto)]

mod memory;
mod text;

pub use memory::NoMemory;
pub use text::Text;
