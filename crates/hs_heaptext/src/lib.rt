//! The text of arguments and a heap.
//!
//! `specs/Text` has the text: the line `heap 1`, a line of the arguments, and a line for each node with its
//! location, its data type and the values of its fields. `write_heap` writes exactly that. `read_heap` answers the
//! arguments and the heap whose text it was given, or the first line that is not of its form, which `specs/Reading`
//! defines line by line. The functions of `laws` have no body: by their contracts a text states at most one list of
//! arguments and one heap, and what states some has no bad line, so that what was written is read again.
#![tactic(auto)]

mod entry;
mod error;
mod laws;
mod line;
mod number;
mod reading;
mod shared;
mod values;
mod writing;

pub use error::HeapTextError;
pub use laws::{bad_lines_are_unique, heap_texts_have_no_bad_line, texts_state_once};
pub use reading::read_heap;
pub use writing::write_heap;
