//! Simple formulas with more atoms or conjuncts.

ghost use Rattle.std.specs.Prelude.{◌≡◌, ◌<◌, ◌^◌, ◌++◌, ◌∷◌, [], length, IfOk};
ghost use Rattle.hs_pure.specs.declared.pure.Pure.TheVariants.{Eq, Not};
ghost use Rattle.hs_pure.specs.Equated.{variable_sum};
ghost use Rattle.hs_pure.specs.Rename.{renamed_lin};
ghost use Rattle.hs_core.specs.Sound.{TermFits};
ghost use Rattle.hs_program_rules.specs.States.{number_var, variable_in};
ghost use Rattle.hs_rules.specs.Parts.{plain};

use hs_heap::{Atom, Disjunct, Formula};
use hs_program_parts::over_term;
use hs_pure::{Lin, NoMemory, Pure, Var};
use hs_sides::{copy_atoms, only};
use sqlite_items::{Boxed, Items};
use std::alloc::Global;

fn copy_conjuncts(alloc: Global, ps: &[Pure]) -> Result<Items<Pure>, NoMemory>
    ensures { IfOk result (λ all. all ≡ ps.now) }
{
    let mut all = Items::new(alloc);
    for p in ps {
        all.push(p.copy(alloc)?)?;
    }
    Ok(all)
}

fn plain(alloc: Global, atoms: Items<Atom>, pure: Items<Pure>) -> Result<Formula, NoMemory>
    ensures { IfOk result (λ f. f ≡ plain atoms pure) }
{
    let bound = Items::new(alloc);
    only(alloc, Disjunct { bound, atoms, pure })
}

// The atoms and conjuncts of a disjunct, with more conjuncts at the end.
pub fn with_conjuncts(alloc: Global, d: &Disjunct, more: Items<Pure>) -> Result<Formula, NoMemory>
    ensures { IfOk result (λ f. f ≡ plain d.now.atoms (d.now.pure ++ more)) }
{
    let mut pure = copy_conjuncts(alloc, d.pure.as_slice())?;
    pure.append(more)?;
    plain(alloc, copy_atoms(alloc, d.atoms.as_slice())?, pure)
}

// The same with an atom at the end.
pub fn with_atom(alloc: Global, d: &Disjunct, atom: Atom) -> Result<Formula, NoMemory>
    ensures { IfOk result (λ f. f ≡ plain (d.now.atoms ++ atom ∷ []) d.now.pure) }
{
    let mut atoms = copy_atoms(alloc, d.atoms.as_slice())?;
    atoms.push(atom)?;
    plain(alloc, atoms, copy_conjuncts(alloc, d.pure.as_slice())?)
}

fn assigned(alloc: Global, held: &[Option<Var>], next: u32, term: &Lin) -> Result<Pure, NoMemory>
    requires fits { TermFits (length held.now) term.now }
    requires few { length held.now < 2 ^ 32 }
    ensures { IfOk result (λ p. p ≡ Eq (variable_sum (number_var next)) (renamed_lin (λ v. variable_in held.now v.number) term.now)) }
{
    let new = Var {
        number: next,
        bag: false,
    };
    let value = over_term(alloc, held, term)?;
    Ok(Pure::Eq(Lin::variable(alloc, new)?, value))
}

// The conjunct that equates a new variable with a term.
pub fn assigned_alone(
    alloc: Global,
    held: &[Option<Var>],
    next: u32,
    term: &Lin,
) -> Result<Items<Pure>, NoMemory>
    requires fits { TermFits (length held.now) term.now }
    requires few { length held.now < 2 ^ 32 }
    ensures { IfOk result (λ ps. ps ≡ Eq (variable_sum (number_var next)) (renamed_lin (λ v. variable_in held.now v.number) term.now) ∷ []) }
{
    let mut all = Items::new(alloc);
    all.push(assigned(alloc, held, next, term)?)?;
    Ok(all)
}

fn negated(alloc: Global, p: &Pure) -> Result<Pure, NoMemory>
    ensures { IfOk result (λ q. q ≡ Not p.now) }
{
    Ok(Pure::Not(Boxed::new(alloc, p.copy(alloc)?)?))
}

// The negation of a condition.
pub fn negated_alone(alloc: Global, p: &Pure) -> Result<Items<Pure>, NoMemory>
    ensures { IfOk result (λ ps. ps ≡ Not p.now ∷ []) }
{
    let mut all = Items::new(alloc);
    all.push(negated(alloc, p)?)?;
    Ok(all)
}
