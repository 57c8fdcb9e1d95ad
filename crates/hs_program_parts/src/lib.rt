//! What steps of programs are made of: what slots hold, new numbers, conjuncts, joined formulas, and the renamings of
//! calls, returns and conditions.
//!
//! Each call gives exactly what the definition of that name in the table of program rules says. The pairs by which a
//! formula is renamed are lists; `specs/` says what they put in the place of a variable.
#![tactic(auto)]

mod calling;
mod flattening;
mod joining;
mod nodes;
mod occurring;
mod opening;
mod pairs;
mod reading;
mod returning;
mod slots;
mod tops;

pub use calling::{CallAsks, CallGives, call_asks, call_gives};
pub use flattening::conjuncts;
pub use joining::{all_joined, beside};
pub use nodes::{fields, new_vars, node_atom};
pub use opening::opened;
pub use reading::reads_held;
pub use returning::{over_condition, over_term, return_formula};
pub use slots::{all_held, variable, variables, with_held};
pub use tops::{next_of, next_of_goal};
