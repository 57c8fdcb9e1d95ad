//! The conjuncts of a formula.

ghost use Rattle.std.specs.Prelude.{◌≡◌, ◌∷◌, [], IfOk};
ghost use Rattle.std.specs.List.{flat_map};
ghost use Rattle.hs_program_rules.specs.Parts.{conjuncts};

use hs_pure::{NoMemory, Pure};
use sqlite_items::Items;
use std::alloc::Global;

/// The conjuncts of the members of an `And` at every depth, or the formula itself.
#[cycle(flattened)]
pub fn conjuncts(alloc: Global, p: &Pure) -> Result<Items<Pure>, NoMemory>
    ensures { IfOk result (λ all. all ≡ conjuncts p.now) }
{
    match p {
        Pure::And(ps) => all_conjuncts(alloc, ps.as_slice()),
        _ => alone(alloc, p),
    }
}

#[cycle(flattened)]
fn all_conjuncts(alloc: Global, ps: &[Pure]) -> Result<Items<Pure>, NoMemory>
    ensures { IfOk result (λ all. all ≡ flat_map conjuncts ps.now) }
{
    let mut all = Items::new(alloc);
    for p in ps {
        all.append(conjuncts(alloc, p)?)?;
    }
    Ok(all)
}

fn alone(alloc: Global, p: &Pure) -> Result<Items<Pure>, NoMemory>
    ensures { IfOk result (λ all. all ≡ p.now ∷ []) }
{
    let mut all = Items::new(alloc);
    all.push(p.copy(alloc)?)?;
    Ok(all)
}
