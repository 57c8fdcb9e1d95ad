//! Causes of searches.

ghost use Rattle.std.specs.Prelude.{◌≡◌, Some, IfOk};
ghost use Rattle.hs_print.specs.Pure.{pure_text};
ghost use Rattle.hs_print.specs.Valuation.{valuation_text};
ghost use Rattle.hs_causes.specs.Causes as spec;

use hs_goal::{Cause, Limits, Obligation, Question};
use hs_heap::{Atom, Defs, Disjunct, Formula};
use hs_numbering::Names;
use hs_pred_lines::asked_below;
use hs_print::{Why, formula, pure, valuation, variable};
use hs_pure::{NoMemory, Pure, Valuation};
use hs_text::Text;
use sqlite_items::Items;
use std::alloc::Global;

fn pure_text(alloc: Global, names: &Names, p: &Pure) -> Result<Text, NoMemory>
    ensures { IfOk result (λ text. text ≡ pure_text (Some names.now) p.now) }
{
    Ok(Text::new(pure(alloc, p, names)?))
}

fn atom_alone(alloc: Global, atom: &Atom) -> Result<Formula, NoMemory>
    ensures { IfOk result (λ f. f ≡ spec.atom_alone atom.now) }
{
    let case = Disjunct {
        bound: Items::new(alloc),
        atoms: Items::from_vec(vec![in alloc; atom.copy(alloc)?]?),
        pure: Items::new(alloc),
    };
    Ok(Formula {
        cases: Items::from_vec(vec![in alloc; case]?),
    })
}

fn values_text(
    alloc: Global,
    names: &Names,
    next: u32,
    q: &Question,
    v: &Valuation,
) -> Result<Text, NoMemory>
    ensures { IfOk result (λ text. text ≡ valuation_text names.now (spec.shown_variables next q.now) v.now) }
{
    let shown = asked_below(alloc, &q.left, &q.right, next)?;
    Ok(Text::new(valuation(alloc, &shown, v, names)?))
}

fn why_failed(
    alloc: Global,
    defs: &Defs,
    names: &Names,
    next: u32,
    obligation: &Obligation,
) -> Result<Why, NoMemory>
    ensures { IfOk result (λ w. w ≡ spec.why_failed defs.now names.now next obligation.now) }
{
    match obligation {
        Obligation::NotImplied(question, v) => Ok(Why::NotImplied(
            pure_text(alloc, names, &question.right)?,
            values_text(alloc, names, next, question, v)?,
        )),
        Obligation::NoChoice(atom) => {
            let alone = atom_alone(alloc, atom)?;
            Ok(Why::NoChoice(Text::new(formula(alloc, &alone, names, defs)?)))
        }
        Obligation::OpenRoot(v) => Ok(Why::OpenRoot(Text::new(variable(alloc, *v, names)?))),
        Obligation::OpenBag(v) => Ok(Why::OpenBag(Text::new(variable(alloc, *v, names)?))),
    }
}

/// The printed cause for which a search has no proof. The claim has these source names and numbers below `next`, and
/// the search these limits. `NoMemory` comes where there is none.
pub fn why(
    alloc: Global,
    defs: &Defs,
    names: &Names,
    next: u32,
    limits: &Limits,
    cause: &Cause,
) -> Result<Why, NoMemory>
    ensures exact { IfOk result (λ w. w ≡ spec.why_of defs.now names.now next limits.now cause.now) }
{
    match cause {
        Cause::Goals => Ok(Why::Goals(limits.goals)),
        Cause::Numbers => Ok(Why::Numbers),
        Cause::Atoms(question) => Ok(Why::Atoms(pure_text(alloc, names, &question.right)?)),
        Cause::Wide(question) => Ok(Why::Wide(pure_text(alloc, names, &question.right)?)),
        Cause::Rank => Ok(Why::Rank(limits.rank)),
        Cause::Failed(obligation) => why_failed(alloc, defs, names, next, obligation),
    }
}
