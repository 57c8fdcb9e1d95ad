//! Pure formulas in parentheses.

ghost use Rattle.std.specs.Prelude.{◌≡◌, ◌<◌, ◌≤◌, ◌^◌, length, false, IfOk, MatchOption};
ghost use Rattle.std.specs.Option.{option_map};
ghost use Rattle.hs_line.specs.Steps.{Gives};
ghost use Rattle.hs_dtext.specs.Formulas as spec;
ghost use Rattle.hs_numbering.specs.Least as first;
ghost use Rattle.hs_numbering.specs.Numbering.{Builds};
ghost use Rattle.hs_norm_formula.specs.Item as item;
ghost use Rattle.hs_dtext_read.specs.Faults.{unless_fault};
ghost use Rattle.hs_dtext_read.specs.Group as groups;

use crate::formulas::{norm_stop, read_stop, tokens};
use hs_line::{Fault as LineFault, Rest, Stop, is_blank, past_blanks};
use hs_norm_formula::{conjunction, error_of};
use hs_numbering::{Fault, Numbering, Reading, least};
use hs_pure::{NoMemory, Pure};
use hs_read_pure::read_pure;
use hs_tree::{ItemKind, ItemTree, PureTree};
use sqlite_items::{Boxed, Items};
use std::alloc::Global;
use std::str;

// What stands before a last `)`, behind which only blanks stand.
fn inside(text: &[u8]) -> Option<&[u8]>
    ensures exact { option_map (λ t. t.now) result ≡ spec.inside text.now }
    ensures within { MatchOption result (Unit {0}) (λ t. length t.now ≤ length text.now) }
{
    let mut front = text;
    while let [before @ .., last] = front {
        if *last == b')' {
            return Some(before);
        }
        if !is_blank(*last) {
            return None;
        }
        front = before;
    }
    None
}

// The tree of a pure formula.
#[tactic(auto, using(crate::proofs::Trees::pure_found, crate::proofs::Trees::pure_stopped))]
fn pure_tree(alloc: Global, text: &[u8]) -> Result<PureTree, Stop>
    requires { length text.now < 2 ^ 32 }
    ensures { Gives (spec.pure_tree_of text.now) result }
{
    let tokens = tokens(alloc, text)?;
    let Ok(text) = str::from_utf8(text) else {
        return Err(Stop::Fault(LineFault::Formula));
    };
    match read_pure(alloc, tokens.as_slice(), text) {
        Ok(tree) => Ok(tree),
        Err(error) => Err(read_stop(error)),
    }
}

// The tree as an item that stands alone.
fn alone(alloc: Global, tree: PureTree) -> Result<Items<ItemTree>, NoMemory>
    ensures { IfOk result (λ items. items ≡ groups.one_item tree) }
{
    let mut items = Items::new(alloc);
    items.push(ItemTree {
        kind: ItemKind::Group(tree),
        at: 0,
    })?;
    Ok(items)
}

// The formula that is built, whatever faults are met.
#[tactic(auto, using(crate::proofs::Groups::group_alone))]
fn built(alloc: Global, n: &mut Numbering, tree: PureTree) -> Result<Boxed<Pure>, NoMemory>
    ensures { Builds (item.disjunction tree false n.old) result n.new }
{
    let items = alone(alloc, tree)?;
    Ok(Boxed::new(alloc, conjunction(alloc, n, items.as_slice())?)?)
}

// Nothing, unless a fault was met.
fn no_fault(alloc: Global, faults: &[Fault]) -> Result<(), Stop>
    ensures { Gives (unless_fault (first.least faults.now)) result }
{
    match least(faults) {
        Some(fault) => Err(norm_stop(error_of(alloc, fault)?)),
        None => Ok(()),
    }
}

// The pure formula of a tree that is written by numbers.
fn pure_by_numbers(alloc: Global, tree: PureTree) -> Result<Pure, Stop>
    ensures { Gives (spec.pure_by_numbers tree) result }
{
    let mut n = Numbering::new(alloc, Reading::Numbered);
    let pure = built(alloc, &mut n, tree)?;
    no_fault(alloc, n.faults.as_slice())?;
    Ok(pure.into_inner())
}

/// A pure formula in parentheses.
pub fn enclosed(alloc: Global, rest: &Rest<'_>) -> Result<Pure, Stop>
    requires { length rest.now < 2 ^ 32 }
    ensures { Gives (spec.enclosed rest.now) result }
{
    let [b'(', text @ ..] = past_blanks(rest.bytes()) else {
        return Err(Stop::Fault(LineFault::Word));
    };
    let Some(text) = inside(text) else {
        return Err(Stop::Fault(LineFault::Word));
    };
    let tree = pure_tree(alloc, text)?;
    pure_by_numbers(alloc, tree)
}
