//! Written derivations are read back.
//!
//! The functions have no body: their contracts say that the line of a writable node is read as that node, and the text of
//! a writable derivation as that derivation, also where lines between say which claims are open.
#![tactic(auto)]

mod laws;

pub use laws::{derivations_come_back, nodes_come_back, proved_comes_back};
