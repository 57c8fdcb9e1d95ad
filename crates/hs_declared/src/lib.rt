//! What a source declares, and where a name is declared twice or not at all.
//!
//! `Declarations::of` gives the data types and predicates of a source, its methods, and how many parameters each has.
//! `Table` and `Directory` find what is declared under a name, and where; contracts see their lists. `blame_second`
//! notes each second declaration of a source, `blame_repeated` each of a list of names, and `type_of` a type that
//! is not declared.
#![tactic(auto)]

mod declarations;
mod declared;
mod directory;
mod shared;
mod table;
mod types;

pub use declarations::Declarations;
pub use declared::{blame_repeated, blame_second};
pub use directory::Directory;
pub use table::Table;
pub use types::{VarType, optional_type, type_of, undeclared};
