//! Formulas and values of rows of tests.
//!
//! Rows are read when they run. So what a call asks of a formula is tested first: each test here that answers true
//! has shown just that, as its contract says. A row whose formula fails a test is none.
#![tactic(auto)]

mod forms;
mod light;
mod names;
mod no_row;
mod quantifiers;
mod reading;
mod values;

pub use forms::{is_decidable, is_flat, is_simple};
pub use light::is_light;
pub use names::keeps_apart;
pub use no_row::NoRow;
pub use reading::{case, conjunction, cut, formula};
pub use values::{number, pairs, valuation, variable};
