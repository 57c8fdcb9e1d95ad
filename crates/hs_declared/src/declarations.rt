//! What a source declares.

ghost use Rattle.std.specs.Prelude.{◌≡◌, ◌<◌, ◌^◌, length, IfOk};
ghost use Rattle.hs_declared.specs.Declaring as spec;

use crate::declared::{entries, method_names, param_counts};
use crate::directory::Directory;
use crate::table::Table;
use hs_pure::NoMemory;
use hs_tree::SourceItem;
use sqlite_items::Items;
use std::alloc::Global;

/// The data types and predicates of a source, and its methods with the numbers of their parameters.
#[derive(Drop)]
pub struct Declarations {
    pub table: Table,
    pub methods: Directory,
    pub counts: Items<usize>,
}

impl Declarations {
    /// What these items, of which there are fewer than 2^32, declare.
    pub fn of(alloc: Global, items: &[SourceItem]) -> Result<Declarations, NoMemory>
        requires { length items.now < 2 ^ 32 }
        ensures { IfOk result (λ d. d ≡ spec.declarations items.now) }
    {
        Ok(Declarations {
            table: Table::new(alloc, entries(alloc, items)?)?,
            methods: Directory::new(alloc, method_names(alloc, items)?)?,
            counts: param_counts(alloc, items)?,
        })
    }
}
