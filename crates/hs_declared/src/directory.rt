//! Names in source order, found by look-up.

ghost use Rattle.std.specs.Prelude.{◌≡◌, IfOk, OnOk, List, ℕ};
ghost use Rattle.std.specs.Option.{option_copied};
ghost use Rattle.indexmap.specs.IndexMap.{get_by_text};
ghost use Rattle.hs_declared.specs.Names as spec;
ghost use Rattle.hs_norm_formula.specs.Table.{or_first};

use hs_pure::NoMemory;
use hs_text::Text;
use hs_tree::Ident;
use indexmap::IndexMap;
use sqlite_items::Items;
use std::alloc::Global;
use std::marker::Model;

/// A list of names, in which the first place of a name is found by look-up. Contracts see the list.
#[derive(Drop)]
pub struct Directory {
    names: Items<Ident>,
    places: IndexMap<String, usize>,
}

impl Model for Directory {
    ghost use Rattle.std.specs.Prelude.{◌≡◌, List, ℕ};
    ghost use Rattle.indexmap.specs.IndexMap.{get_by_text};
    ghost use Rattle.hs_tree.specs.declared.ident.Ident.{Ident as Name};
    ghost use Rattle.hs_declared.specs.Names.{place};

    ghost Value = { List Name };

    ghost view = { λ d. d.names };

    ghost invariant = { λ d. (q : List ℕ) → get_by_text d.places q ≡ place q d.names };
}

impl Directory {
    pub fn new(alloc: Global, names: Items<Ident>) -> Result<Directory, NoMemory>
        ensures { IfOk result (λ d. d ≡ names) }
    {
        let places = places(alloc, names.as_slice())?;
        Ok(Directory { names, places })
    }

    /// The same of names that are copied.
    pub fn of(alloc: Global, names: &[Ident]) -> Result<Directory, NoMemory>
        ensures { IfOk result (λ d. d ≡ names.now) }
    {
        Directory::new(alloc, copy_names(alloc, names)?)
    }

    /// The first place of a name.
    pub fn place(&self, name: &Text) -> Option<usize>
        ensures { result ≡ spec.place name.now self.now }
    {
        match self.places.get(name.as_str()) {
            Some(i) => Some(*i),
            None => None,
        }
    }

    /// The first of a name.
    pub fn get(&self, name: &Text) -> Option<&Ident>
        ensures { option_copied result ≡ spec.item_at self.now (spec.place name.now self.now) }
    {
        match self.place(name) {
            Some(i) => self.names.get(i),
            None => None,
        }
    }

    pub fn as_slice(&self) -> &[Ident]
        ensures { result.now ≡ self.now }
    {
        self.names.as_slice()
    }
}

fn copy_names(alloc: Global, names: &[Ident]) -> Result<Items<Ident>, NoMemory>
    ensures { IfOk result (λ all. all ≡ names.now) }
{
    let mut all = Items::new(alloc);
    for name in names {
        all.push(name.copy(alloc)?)?;
    }
    Ok(all)
}

// Keeps the place of a name that has none yet.
fn note(
    alloc: Global,
    places: &mut IndexMap<String, usize>,
    x: &Ident,
    i: usize,
) -> Result<(), NoMemory>
    ensures { OnOk result ((q : List ℕ) → get_by_text places.new q ≡ or_first (get_by_text places.old q) (spec.here q x.now i)) }
{
    let name = x.text.as_str();
    if places.get(name).is_some() {
        return Ok(());
    }
    let key = String::from_str(alloc, name)?;
    places.insert(key, i)?;
    Ok(())
}

fn places(alloc: Global, names: &[Ident]) -> Result<IndexMap<String, usize>, NoMemory>
    ensures { IfOk result (λ m. (q : List ℕ) → get_by_text m q ≡ spec.place q names.now) }
{
    let mut places = IndexMap::new(alloc);
    for i in 0..names.len() {
        note(alloc, &mut places, &names[i], i)?;
    }
    Ok(places)
}
