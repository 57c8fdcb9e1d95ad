//! The valuation with the bags that counts say.

ghost use Rattle.std.specs.Prelude.{◌≡◌, true, [], ◌∷◌, IfOk, OnOk, IsErrOf, FitsSigned};
ghost use mir.Syntax.{w128};
ghost use Rattle.hs_pure.specs.declared.var.Var.{Var};
ghost use Rattle.hs_pure.specs.Multiset.{nothing};
ghost use Rattle.hs_pure.specs.Eval.{stack_of, multiset_of};
ghost use Rattle.hs_pure.specs.Truth.{value};
ghost use Rattle.hs_counts.specs.Counts.{bag_with, stack_with_counts, HasWideElement, Rises, BagsRise};
ghost use Rattle.hs_counts.specs.Listed.{is_listed, AreSaid};
ghost use Rattle.hs_counts.specs.declared.rebuild.RebuildError.TheVariants as rebuild_error;

use crate::Count;
use crate::elements::set_count;
use crate::value::number;
use hs_exact_sum::exact_value;
use hs_pure::{NoMemory, Valuation, Var};
use sqlite_items::Items;
use std::alloc::{AllocError, Global};

/// Why no bags are rebuilt.
#[derive(Clone, Copy, Debug, PartialEq, Eq)]
pub enum RebuildError {
    /// The value of an element has more than 128 bits.
    Wide,
    /// There was no memory.
    Memory,
}

impl From<NoMemory> for RebuildError {
    ghost from_gives = { λ _ e. e ≡ rebuild_error.Memory };

    fn from(_: NoMemory) -> RebuildError {
        RebuildError::Memory
    }
}

impl From<AllocError> for RebuildError {
    ghost from_gives = { λ _ e. e ≡ rebuild_error.Memory };

    fn from(_: AllocError) -> RebuildError {
        RebuildError::Memory
    }
}

// Sets the count in the elements of the bag variable `u`, if it is one of `u`.
fn add_count(
    elements: &mut Vec<(i128, i128)>,
    c: &Count,
    u: Var,
    v: &Valuation,
) -> Result<(), RebuildError>
    requires rises { Rises elements.old.items }
    ensures rise { OnOk result (Rises elements.new.items) }
    ensures same { OnOk result (multiset_of elements.new.items ≡ bag_with (stack_of v.now) (c.now ∷ []) u (multiset_of elements.old.items)) }
    ensures wide { IsErrOf result rebuild_error.Wide → ¬ (FitsSigned w128 (value (stack_of v.now) c.now.element)) }
{
    if c.of != u {
        return Ok(());
    }
    let Some(x) = exact_value(&c.element, v) else {
        return Err(RebuildError::Wide);
    };
    set_count(elements, x, number(v, c.count))?;
    Ok(())
}

// The elements of the bag variable `u` with their counts.
fn bag_of(
    alloc: Global,
    counts: &[Count],
    u: Var,
    v: &Valuation,
) -> Result<Items<(i128, i128)>, RebuildError>
    ensures same { IfOk result (λ es. multiset_of es ≡ bag_with (stack_of v.now) counts.now u nothing) }
    ensures rise { IfOk result Rises }
    ensures wide { IsErrOf result rebuild_error.Wide → HasWideElement (stack_of v.now) counts.now }
{
    let mut elements = Vec::new(alloc);
    for c in counts {
        add_count(&mut elements, c, u, v)?;
    }
    Ok(Items::from_vec(elements))
}

fn is_listed(bags: &[(Var, Items<(i128, i128)>)], u: Var) -> bool
    ensures { result ≡ is_listed bags.now u }
{
    bags.iter().any(|bag| bag.0 == u)
}

// Lists the bag of the variable `u`, unless it is listed.
fn list_bag(
    alloc: Global,
    bags: &mut Items<(Var, Items<(i128, i128)>)>,
    counts: &[Count],
    u: Var,
    v: &Valuation,
) -> Result<(), RebuildError>
    requires said { AreSaid (stack_of v.now) counts.now bags.old }
    ensures said { OnOk result (AreSaid (stack_of v.now) counts.now bags.new) }
    ensures kept { OnOk result ((w : Var) → is_listed bags.old w ≡ true → is_listed bags.new w ≡ true) }
    ensures listed { OnOk result (is_listed bags.new u ≡ true) }
    ensures wide { IsErrOf result rebuild_error.Wide → HasWideElement (stack_of v.now) counts.now }
{
    if is_listed(bags.as_slice(), u) {
        return Ok(());
    }
    let elements = bag_of(alloc, counts, u, v)?;
    bags.push((u, elements))?;
    Ok(())
}

/// The valuation with the bags that the counts say, in the place of its own. A count that is not positive is none, and
/// of equal elements the last one counts. `Wide` comes only where the value of an element has more than 128 bits.
pub fn rebuild_bags(
    alloc: Global,
    counts: &[Count],
    v: &Valuation,
) -> Result<Valuation, RebuildError>
    ensures same { IfOk result (λ w. stack_of w ≡ stack_with_counts (stack_of v.now) counts.now) }
    ensures numbers { IfOk result (λ w. w.numbers ≡ v.now.numbers) }
    ensures rise { IfOk result BagsRise }
    ensures wide { IsErrOf result rebuild_error.Wide → HasWideElement (stack_of v.now) counts.now }
{
    let mut bags = Items::new(alloc);
    for c in counts {
        list_bag(alloc, &mut bags, counts, c.of, v)?;
    }
    let numbers = Items::from_slice(alloc, v.numbers.as_slice())?;
    Ok(Valuation { numbers, bags })
}
