//! The source names of the variables of a claim.

ghost use Rattle.std.specs.Prelude.{◌≡◌, IfOk};

use hs_pure::NoMemory;
use hs_text::Text;
use sqlite_items::Items;
use std::alloc::Global;

/// The name of number k, if it has one, is item k, counted from 1.
#[derive(Debug, Drop)]
pub struct Names {
    pub list: Items<Option<Text>>,
}

impl Names {
    /// Equal names.
    pub fn copy(&self, alloc: Global) -> Result<Names, NoMemory>
        ensures { IfOk result (λ n. n ≡ self.now) }
    {
        let mut list = Items::new(alloc);
        for name in self.list.as_slice() {
            list.push(copy_name(alloc, name)?)?;
        }
        Ok(Names { list })
    }
}

fn copy_name(alloc: Global, name: &Option<Text>) -> Result<Option<Text>, NoMemory>
    ensures { IfOk result (λ n. n ≡ name.now) }
{
    match name {
        None => Ok(None),
        Some(name) => Ok(Some(name.copy(alloc)?)),
    }
}
