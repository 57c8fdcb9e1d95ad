//! Names with their variables, found by look-up.

ghost use Rattle.std.specs.Prelude.{◌≡◌, ◌++◌, ◌∷◌, [], ◌-◌, List, ℕ, length, take, OnOk, OnErr};
ghost use Rattle.std.specs.Option.{option_copied};
ghost use Rattle.indexmap.specs.IndexMap.{get_by_text};
ghost use Rattle.hs_numbering.specs.Numbering as spec;
ghost use Rattle.hs_numbering.specs.Scope.{kept, here, left, last_or};

use crate::numbering::Named;
use hs_pure::{NoMemory, Var};
use hs_text::Text;
use indexmap::IndexMap;
use sqlite_items::Items;
use std::alloc::Global;
use std::marker::Model;

/// A list of names with their variables, in which the last of a name is found by look-up. Contracts see the
/// list.
#[derive(Drop)]
pub struct Scope {
    list: Items<Named>,
    // The variables of each name in the order of the list.
    vars: IndexMap<String, Items<Var>>,
}

impl Model for Scope {
    ghost use Rattle.std.specs.Prelude.{◌≡◌, List, ℕ};
    ghost use Rattle.indexmap.specs.IndexMap.{get_by_text};
    ghost use Rattle.hs_numbering.specs.declared.numbering.Named.{Named as Entry};
    ghost use Rattle.hs_numbering.specs.Scope.{kept, named};

    ghost Value = { List Entry };

    ghost view = { λ s. s.list };

    ghost invariant = { λ s. (q : List ℕ) → kept (get_by_text s.vars q) ≡ named q s.list };
}

impl Scope {
    pub fn new(alloc: Global) -> Scope
        ensures { result ≡ [] }
    {
        Scope {
            list: Items::new(alloc),
            vars: IndexMap::new(alloc),
        }
    }

    pub fn as_slice(&self) -> &[Named]
        ensures { result.now ≡ self.now }
    {
        self.list.as_slice()
    }

    /// The variable of the last of the name.
    pub fn last(&self, name: &Text) -> Option<Var>
        ensures { result ≡ spec.last_named name.now self.now }
    {
        match self.vars.get(name.as_str()) {
            Some(vars) => last_of(vars.as_slice()),
            None => None,
        }
    }

    /// Adds a name with its variable at the end. Where memory runs out, the list stays as it was.
    pub fn push(&mut self, alloc: Global, name: &Text, var: Var) -> Result<(), NoMemory>
        ensures added { OnOk result (self.new ≡ self.old ++ record { name = name.now; var = var } ∷ []) }
        ensures unchanged { OnErr result (self.new ≡ self.old) }
    {
        let copy = name.copy(alloc)?;
        self.list.push(Named { name: copy, var })?;
        match note(alloc, &mut self.vars, name, var) {
            Ok(()) => Ok(()),
            Err(e) => {
                self.list.pop();
                Err(e)
            }
        }
    }

    /// Takes the last name away, where there is one.
    pub fn pop(&mut self)
        ensures { self.new ≡ take (length self.old - 1) self.old }
    {
        if let Some(named) = self.list.pop() {
            forget(&mut self.vars, &named.name);
        }
    }
}

fn last_of(vars: &[Var]) -> Option<Var>
    ensures { result ≡ last_or None vars.now }
{
    vars.last().copied()
}

// Keeps the variable as the last one of the name.
fn note(
    alloc: Global,
    vars: &mut IndexMap<String, Items<Var>>,
    name: &Text,
    var: Var,
) -> Result<(), NoMemory>
    ensures added { OnOk result ((q : List ℕ) → kept (get_by_text vars.new q) ≡ kept (get_by_text vars.old q) ++ here q name.now var) }
    ensures unchanged { OnErr result ((q : List ℕ) → kept (get_by_text vars.new q) ≡ kept (get_by_text vars.old q)) }
{
    if let Some(all) = vars.get_mut(name.as_str()) {
        all.push(var)?;
        return Ok(());
    }
    let mut all = Items::new(alloc);
    all.push(var)?;
    let key = String::from_str(alloc, name.as_str())?;
    vars.insert(key, all)?;
    Ok(())
}

// Takes the last variable of the name away.
fn forget(vars: &mut IndexMap<String, Items<Var>>, name: &Text)
    ensures { (q : List ℕ) → kept (get_by_text vars.new q) ≡ left q name.now (kept (get_by_text vars.old q)) }
{
    if let Some(all) = vars.get_mut(name.as_str()) {
        all.pop();
    }
}
