//! Places of items that pass a test, from 1.

ghost use Rattle.std.specs.Prelude.{◌≡◌, ◌+◌, None, Some, IfOk, MatchOption};
ghost use Rattle.std.specs.List.{All};
ghost use Rattle.hs_pure.specs.Sums.{IsOrdered};
ghost use Rattle.hs_rules.specs.Parts.{atom_at, conjunct_at, right_atoms, right_pure};
ghost use Rattle.hs_side_rules.specs.Solving.{is_equation};
ghost use Rattle.hs_choices.specs.Places.{first_place};
ghost use Rattle.hs_choices.specs.Tests.{is_known, is_mixed};

use crate::parts::{atoms_of, is_listed, pure_of};
use hs_goal::Goal;
use hs_heap::Atom;
use hs_pure::{NoMemory, Pure};
use hs_side_rules::is_equation;
use hs_subgoals::is_mixed;

/// The place of an index. No list of a goal is so long that its places pass 32 bits, or there would be no memory for
/// it.
pub fn place(index: usize) -> Result<u32, NoMemory>
    ensures { IfOk result (λ n. n ≡ index + 1) }
{
    if index >= u32::MAX as usize {
        return Err(NoMemory);
    }
    Ok(index as u32 + 1)
}

/// The place of the first right conjunct that gives the one open variable in it a value.
pub fn first_equation(goal: &Goal) -> Result<Option<u32>, NoMemory>
    requires { All IsOrdered (right_pure goal.now) }
    ensures { IfOk result (λ n. n ≡ first_place (is_equation goal.now.opens) (right_pure goal.now)) }
{
    for (i, p) in pure_of(&goal.right).iter().enumerate() {
        if is_equation(goal.opens.as_slice(), p) {
            return Ok(Some(place(i)?));
        }
    }
    Ok(None)
}

fn is_known(goal: &Goal, atom: &Atom) -> bool
    ensures { result ≡ is_known goal.now atom.now }
{
    !is_listed(goal.opens.as_slice(), atom.root)
}

/// The index of the first right atom whose root is not open, and the atom.
pub fn first_known(goal: &Goal) -> Option<(usize, &Atom)>
    ensures { MatchOption result (first_place (is_known goal.now) (right_atoms goal.now) ≡ None) (λ t. (first_place (is_known goal.now) (right_atoms goal.now) ≡ Some (t.0 + 1)) × (t.1.now ≡ atom_at (t.0 + 1) (right_atoms goal.now))) }
{
    for (i, atom) in atoms_of(&goal.right).iter().enumerate() {
        if is_known(goal, atom) {
            return Some((i, atom));
        }
    }
    None
}

/// The first right conjunct that has both an open variable and a bag literal, and its index.
pub fn first_mixed(goal: &Goal) -> Option<(usize, &Pure)>
    ensures { MatchOption result (first_place (is_mixed goal.now.opens) (right_pure goal.now) ≡ None) (λ t. (first_place (is_mixed goal.now.opens) (right_pure goal.now) ≡ Some (t.0 + 1)) × (t.1.now ≡ conjunct_at (t.0 + 1) (right_pure goal.now))) }
{
    for (i, p) in pure_of(&goal.right).iter().enumerate() {
        if is_mixed(goal.opens.as_slice(), p) {
            return Some((i, p));
        }
    }
    None
}
