//! The question of a rule, and its left side.

ghost use Rattle.std.specs.Prelude.{◌≡◌, ◌≤◌, ◌<◌, ◌+◌, ◌^◌, ◌++◌, [], IfOk, IsErrOf};
ghost use Rattle.hs_pure.specs.declared.pure.Pure.TheVariants.{Or};
ghost use Rattle.hs_heap.specs.Sound.{IsSound};
ghost use Rattle.hs_goal.specs.Shape.{GoalFits};
ghost use Rattle.hs_xpure.specs.Approximation.{approximation_of, next_of, conjunction};
ghost use Rattle.hs_xpure.specs.Laws.{HasLowNumbers};
ghost use Rattle.hs_xpure.specs.declared.error.XError.TheVariants.{Numbers};
ghost use Rattle.hs_rules.specs.Parts.{left_atoms, left_pure};
ghost use Rattle.hs_rules.specs.Questions.{known, asked, question_of};
ghost use Rattle.hs_rules.specs.Rules.{Applies, TakesTooMany};
ghost use Rattle.hs_question.specs.Asked.{SidesAreLow};

use crate::asking::{asked, conjunction};
use crate::parts::{atoms_of, pure_of, push_atoms, push_conjuncts};
use hs_goal::{ERule, Goal, Question};
use hs_heap::{Atom, Defs};
use hs_pure::{NoMemory, Pure};
use hs_xpure::{XError, approximation, new_numbers_are_in_range};
use sqlite_items::Items;
use std::alloc::Global;

/// The question of a rule that applies to a well-formed goal, for those rules that ask one.
///
/// `Numbers` comes only where the approximation of the used and the left atoms takes more than 2^30 new numbers.
/// `Memory` comes where there is none. The numbers of both sides are below 2^31.
#[tactic(auto, using(crate::proofs::Rows::false_level, crate::proofs::Rows::empty_level))]
pub fn question(
    alloc: Global,
    defs: &Defs,
    goal: &Goal,
    rule: &ERule,
) -> Result<Option<Question>, XError>
    requires sound { IsSound defs.now }
    requires fits { GoalFits defs.now goal.now }
    requires applies { Applies defs.now goal.now rule.now }
    ensures exact { IfOk result (λ q. q ≡ question_of defs.now goal.now rule.now) }
    ensures numbers { IsErrOf result Numbers → TakesTooMany defs.now goal.now rule.now }
    ensures low { IfOk result SidesAreLow }
{
    match rule {
        ERule::False(level) => Ok(Some(contradiction(alloc, defs, goal, *level)?)),
        ERule::Empty(level) => Ok(Some(implication(alloc, defs, goal, *level)?)),
        ERule::LeftOr => Ok(None),
        ERule::LeftExists => Ok(None),
        ERule::Split(_) => Ok(None),
        ERule::RightOr(_) => Ok(None),
        ERule::RightExists => Ok(None),
        ERule::Instantiate(_) => Ok(None),
        ERule::Match(_, _) => Ok(None),
        ERule::Unfold(_) => Ok(None),
        ERule::Fold(_, _) => Ok(None),
        ERule::Lemma(_, _) => Ok(None),
    }
}

// Whether the left side contradicts itself.
fn contradiction(alloc: Global, defs: &Defs, goal: &Goal, level: u32) -> Result<Question, XError>
    requires sound { IsSound defs.now }
    requires fits { GoalFits defs.now goal.now }
    requires level { level ≤ 3 }
    ensures exact { IfOk result (λ q. q ≡ record { left = known defs.now goal.now level; right = Or [] }) }
    ensures numbers { IsErrOf result Numbers → goal.now.next + 2 ^ 30 < next_of defs.now level (goal.now.used ++ left_atoms goal.now) goal.now.next }
    ensures low { IfOk result (λ q. HasLowNumbers q.left × HasLowNumbers q.right) }
{
    let left = known(alloc, defs, goal, level)?;
    Ok(Question {
        left: conjunction(left),
        right: Pure::Or(Items::new(alloc)),
    })
}

// Whether the left side implies what the right side says.
fn implication(alloc: Global, defs: &Defs, goal: &Goal, level: u32) -> Result<Question, XError>
    requires sound { IsSound defs.now }
    requires fits { GoalFits defs.now goal.now }
    requires level { level ≤ 3 }
    ensures exact { IfOk result (λ q. q ≡ record { left = known defs.now goal.now level; right = asked goal.now }) }
    ensures numbers { IsErrOf result Numbers → goal.now.next + 2 ^ 30 < next_of defs.now level (goal.now.used ++ left_atoms goal.now) goal.now.next }
    ensures low { IfOk result (λ q. HasLowNumbers q.left × HasLowNumbers q.right) }
{
    let left = known(alloc, defs, goal, level)?;
    let right = asked(alloc, goal)?;
    Ok(Question {
        left: conjunction(left),
        right,
    })
}

// The conjuncts that are known of the used atoms and the left side.
fn known(alloc: Global, defs: &Defs, goal: &Goal, level: u32) -> Result<Items<Pure>, XError>
    requires sound { IsSound defs.now }
    requires fits { GoalFits defs.now goal.now }
    requires level { level ≤ 3 }
    ensures exact { IfOk result (λ ps. ps ≡ approximation_of defs.now level (goal.now.used ++ left_atoms goal.now) goal.now.next ++ left_pure goal.now) }
    ensures numbers { IsErrOf result Numbers → goal.now.next + 2 ^ 30 < next_of defs.now level (goal.now.used ++ left_atoms goal.now) goal.now.next }
    ensures low { IfOk result (λ ps. HasLowNumbers (conjunction ps)) }
{
    let atoms = known_atoms(alloc, goal)?;
    new_numbers_are_in_range();
    let (mut pure, _) = approximation(alloc, defs, level, atoms.as_slice(), goal.next)?;
    push_conjuncts(alloc, &mut pure, pure_of(&goal.left))?;
    Ok(pure)
}

fn known_atoms(alloc: Global, goal: &Goal) -> Result<Items<Atom>, NoMemory>
    ensures { IfOk result (λ all. all ≡ goal.now.used ++ left_atoms goal.now) }
{
    let mut all = Items::new(alloc);
    push_atoms(alloc, &mut all, goal.used.as_slice())?;
    push_atoms(alloc, &mut all, atoms_of(&goal.left))?;
    Ok(all)
}
