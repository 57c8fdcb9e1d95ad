//! Laws of formulas, for the proofs of the layers above. Each is the contract of a function without a body.

ghost use Rattle.hs_pure.specs.Laws.{TruthIsOfFree, FreeOccurs, OccursBelowTop, AndIsAll, OrIsAny, LightIsInRange, ApartIsInRange, RenamedIsLight, RenamedIsOrdered, RenamedBagUse, ValuationCounts, EquatedIs};

/// Stacks that agree on the free variables of a formula give it the same truth.
pub fn truth_is_of_free()
    ensures { TruthIsOfFree }
{}

/// What occurs free occurs.
pub fn free_occurs()
    ensures { FreeOccurs }
{}

/// No number that occurs is above the greatest one.
pub fn occurs_below_top()
    ensures { OccursBelowTop }
{}

/// `And` is true where all of its members are.
pub fn and_is_all()
    ensures { AndIsAll }
{}

/// `Or` is true where one of its members is.
pub fn or_is_any()
    ensures { OrIsAny }
{}

/// A light formula may be renamed by every renaming.
pub fn light_is_in_range()
    ensures { LightIsInRange }
{}

/// A formula whose sums are in order may be renamed by every renaming that keeps its variables apart, however
/// much its sums weigh.
pub fn apart_is_in_range()
    ensures { ApartIsInRange }
{}

/// A renamed formula is as light.
pub fn renamed_is_light()
    ensures { RenamedIsLight }
{}

/// A renaming that keeps kinds keeps the terms of sums in order and without coefficient 0.
pub fn renamed_is_ordered()
    ensures { RenamedIsOrdered }
{}

/// A renaming leaves the bag literals where they stand.
pub fn renamed_bag_use()
    ensures { RenamedBagUse }
{}

/// A valuation gives each bag variable the counts that it lists.
pub fn valuation_counts()
    ensures { ValuationCounts }
{}

/// Exactly an equation between two variables equates them.
pub fn equated_is()
    ensures { EquatedIs }
{}
