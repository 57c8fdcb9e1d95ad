ghost use Rattle.std.specs.Prelude.{◌≡◌, IfOk};

use crate::{NoMemory, Var};
use sqlite_items::Items;
use std::alloc::Global;

/// Values of variables. A bag has its distinct elements by rising value, with positive counts. A variable
/// that is not named is 0 or the empty bag.
#[derive(Debug, Drop)]
pub struct Valuation {
    pub numbers: Items<(Var, i128)>,
    pub bags: Items<(Var, Items<(i128, i128)>)>,
}

impl Valuation {
    /// An equal valuation.
    pub fn copy(&self, alloc: Global) -> Result<Valuation, NoMemory>
        ensures { IfOk result (λ v. v ≡ self.now) }
    {
        Ok(Valuation {
            numbers: Items::from_slice(alloc, self.numbers.as_slice())?,
            bags: copy_bags(alloc, self.bags.as_slice())?,
        })
    }
}

fn copy_bags(
    alloc: Global,
    bags: &[(Var, Items<(i128, i128)>)],
) -> Result<Items<(Var, Items<(i128, i128)>)>, NoMemory>
    ensures { IfOk result (λ all. all ≡ bags.now) }
{
    let mut all = Items::new(alloc);
    for bag in bags {
        let elements = Items::from_slice(alloc, bag.1.as_slice())?;
        all.push((bag.0, elements))?;
    }
    Ok(all)
}
