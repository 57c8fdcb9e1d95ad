ghost use Rattle.std.specs.Prelude.{◌≡◌, OnOk};
ghost use Rattle.hs_xpure.specs.Approximation.{unformed, combined};

use hs_pure::{NoMemory, Pure};
use sqlite_items::Items;
use std::alloc::Global;

/// Conjuncts, the numbers of the variables in them that stand for addresses, and the next unused number.
#[derive(Debug, Drop)]
pub struct Formed {
    pub pure: Items<Pure>,
    pub addresses: Items<u32>,
    pub next: u32,
}

impl Formed {
    /// Nothing, from a number on.
    pub fn new(alloc: Global, next: u32) -> Formed
        ensures { result ≡ unformed next }
    {
        Formed {
            pure: Items::new(alloc),
            addresses: Items::new(alloc),
            next,
        }
    }

    /// Puts what was formed after it to the end.
    pub fn append(&mut self, more: Formed) -> Result<(), NoMemory>
        ensures { OnOk result (self.new ≡ combined self.old more) }
    {
        self.pure.append(more.pure)?;
        self.addresses.append(more.addresses)?;
        self.next = more.next;
        Ok(())
    }
}
