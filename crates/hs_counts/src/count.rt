ghost use Rattle.std.specs.Prelude.{◌≡◌, IfOk};

use hs_pure::{Lin, NoMemory, Pure, Var};
use sqlite_items::{Boxed, Items};
use std::alloc::Global;

/// A bag variable has the value of `element` as often as the value of `count` says.
#[derive(Debug, Drop)]
pub struct Count {
    pub of: Var,
    pub element: Lin,
    /// A number variable.
    pub count: Var,
}

impl Count {
    /// An equal count.
    pub fn copy(&self, alloc: Global) -> Result<Count, NoMemory>
        ensures { IfOk result (λ c. c ≡ self.now) }
    {
        Ok(Count {
            of: self.of,
            element: self.element.copy(alloc)?,
            count: self.count,
        })
    }
}

/// A formula without bags that stands for one with bags.
#[derive(Debug, Drop)]
pub struct Reduced {
    pub pure: Pure,
    /// The bags that a solution of `pure` says.
    pub counts: Items<Count>,
    /// A number above all that occur.
    pub next: u32,
}

impl Reduced {
    /// An equal reduction.
    pub fn copy(&self, alloc: Global) -> Result<Reduced, NoMemory>
        ensures { IfOk result (λ r. r ≡ self.now) }
    {
        let pure = Boxed::new(alloc, self.pure.copy(alloc)?)?;
        let counts = copy_counts(alloc, self.counts.as_slice())?;
        Ok(Reduced {
            pure: pure.into_inner(),
            counts,
            next: self.next,
        })
    }
}

fn copy_counts(alloc: Global, counts: &[Count]) -> Result<Items<Count>, NoMemory>
    ensures { IfOk result (λ all. all ≡ counts.now) }
{
    let mut all = Items::new(alloc);
    for count in counts {
        all.push(count.copy(alloc)?)?;
    }
    Ok(all)
}
