//! Simple sides with more conjuncts or with one less.

ghost use Rattle.std.specs.Prelude.{◌≡◌, ◌++◌, ◌∷◌, [], false, IfOk, OnOk};
ghost use Rattle.hs_rules.specs.Parts.{IsPlace, plain, without, still_open};

use hs_goal::Goal;
use hs_heap::{Atom, Disjunct, Formula};
use hs_pure::{NoMemory, Pure, Var};
use hs_sides::{copy_atoms, only, with_left};
use sqlite_items::Items;
use std::alloc::Global;

/// The goal with more conjuncts on its simple left side.
pub fn with_more(
    alloc: Global,
    goal: &Goal,
    side: &Disjunct,
    more: Items<Pure>,
) -> Result<Goal, NoMemory>
    ensures { IfOk result (λ sub. sub ≡ record goal.now { left = plain side.now.atoms (side.now.pure ++ more); looked = false }) }
{
    let left = longer(alloc, side, more)?;
    with_left(alloc, goal, left, goal.next)
}

/// The side with more conjuncts, which come last.
pub fn longer(alloc: Global, side: &Disjunct, more: Items<Pure>) -> Result<Formula, NoMemory>
    ensures { IfOk result (λ f. f ≡ plain side.now.atoms (side.now.pure ++ more)) }
{
    let mut pure = Items::new(alloc);
    push_conjuncts(alloc, &mut pure, side.pure.as_slice())?;
    pure.append(more)?;
    plain(alloc, copy_atoms(alloc, side.atoms.as_slice())?, pure)
}

/// The side without a conjunct, by place from 1.
pub fn shorter(alloc: Global, side: &Disjunct, c: u32) -> Result<Formula, NoMemory>
    requires { IsPlace c side.now.pure }
    ensures { IfOk result (λ f. f ≡ plain side.now.atoms (without c side.now.pure)) }
{
    let conjuncts = side.pure.as_slice();
    let mut pure = Items::new(alloc);
    push_conjuncts(alloc, &mut pure, &conjuncts[..c as usize - 1])?;
    push_conjuncts(alloc, &mut pure, &conjuncts[c as usize..])?;
    plain(alloc, copy_atoms(alloc, side.atoms.as_slice())?, pure)
}

fn push_conjuncts(alloc: Global, all: &mut Items<Pure>, conjuncts: &[Pure]) -> Result<(), NoMemory>
    ensures { OnOk result (all.new ≡ all.old ++ conjuncts.now) }
{
    for conjunct in conjuncts {
        all.push(conjunct.copy(alloc)?)?;
    }
    Ok(())
}

// A simple side.
fn plain(alloc: Global, atoms: Items<Atom>, pure: Items<Pure>) -> Result<Formula, NoMemory>
    ensures { IfOk result (λ f. f ≡ plain atoms pure) }
{
    let bound = Items::new(alloc);
    only(alloc, Disjunct { bound, atoms, pure })
}

/// A list of the formula alone.
pub fn alone(alloc: Global, f: &Pure) -> Result<Items<Pure>, NoMemory>
    ensures { IfOk result (λ all. all ≡ f.now ∷ []) }
{
    let mut all = Items::new(alloc);
    all.push(f.copy(alloc)?)?;
    Ok(all)
}

/// The open variables that do not occur free.
pub fn still_open(alloc: Global, f: &Pure, opens: &[Var]) -> Result<Items<Var>, NoMemory>
    ensures { IfOk result (λ all. all ≡ still_open f.now opens.now) }
{
    let mut all = Items::new(alloc);
    for v in opens {
        if !f.has(*v) {
            all.push(*v)?;
        }
    }
    Ok(all)
}
