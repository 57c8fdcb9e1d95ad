//! Disjuncts with new numbers for what they bind.

ghost use Rattle.std.specs.Prelude.{◌≡◌, IfOk};
ghost use Rattle.hs_rules.specs.Parts.{opened};
ghost use Rattle.hs_program_parts.specs.Pairs.{CanBeOpened};

use crate::pairs::fresh_pairs;
use hs_heap::{Disjunct, apart_may_rename};
use hs_pure::NoMemory;
use sqlite_items::Items;
use std::alloc::Global;

/// A disjunct with numbers from `next` on for what it binds, which it binds no more.
pub fn opened(alloc: Global, d: &Disjunct, next: u32) -> Result<Disjunct, NoMemory>
    requires { CanBeOpened next d.now }
    ensures { IfOk result (λ e. e ≡ opened d.now next) }
{
    let pairs = fresh_pairs(alloc, d.bound.as_slice(), next)?;
    apart_may_rename();
    let Disjunct { atoms, pure, .. } = d.put_names(alloc, pairs.as_slice())?;
    Ok(Disjunct {
        bound: Items::new(alloc),
        atoms,
        pure,
    })
}
