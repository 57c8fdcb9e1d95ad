//! The declared data types and predicates.

ghost use Rattle.std.specs.Prelude.{◌≡◌, IfOk, OnOk, List, ℕ};
ghost use Rattle.std.specs.Option.{option_copied};
ghost use Rattle.indexmap.specs.IndexMap.{get_by_text};
ghost use Rattle.hs_norm_formula.specs.Table as spec;

use hs_heap::Of;
use hs_pure::NoMemory;
use hs_text::Text;
use indexmap::IndexMap;
use sqlite_items::Items;
use std::alloc::Global;

/// A declared name: of what an atom with this name is, and the kinds of its arguments.
#[derive(Debug, Drop)]
pub struct Entry {
    pub name: Text,
    pub of: Of,
    /// For each argument, whether it is a bag.
    pub kinds: Items<bool>,
}

// Keeps the place of a name that has none yet.
fn note(
    alloc: Global,
    places: &mut IndexMap<String, usize>,
    entry: &Entry,
    i: usize,
) -> Result<(), NoMemory>
    ensures { OnOk result ((q : List ℕ) → get_by_text places.new q ≡ spec.or_first (get_by_text places.old q) (spec.here q entry.now i)) }
{
    let name = entry.name.as_str();
    if places.get(name).is_some() {
        return Ok(());
    }
    let key = String::from_str(alloc, name)?;
    places.insert(key, i)?;
    Ok(())
}

/// The places of the declared names in the list of declarations: of each name the first.
pub fn places(alloc: Global, entries: &[Entry]) -> Result<IndexMap<String, usize>, NoMemory>
    ensures { IfOk result (λ m. (q : List ℕ) → get_by_text m q ≡ spec.place q entries.now) }
{
    let mut places = IndexMap::new(alloc);
    for i in 0..entries.len() {
        note(alloc, &mut places, &entries[i], i)?;
    }
    Ok(places)
}

/// What is declared under a name.
pub fn declared<'a>(
    places: &IndexMap<String, usize>,
    entries: &'a [Entry],
    name: &Text,
) -> Option<&'a Entry>
    requires { (q : List ℕ) → get_by_text places.now q ≡ spec.place q entries.now }
    ensures { option_copied result ≡ spec.entry name.now entries.now }
{
    match places.get(name.as_str()) {
        Some(i) => entries.get(*i),
        None => None,
    }
}
