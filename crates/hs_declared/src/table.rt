//! The declared data types and predicates, found by look-up.

ghost use Rattle.std.specs.Prelude.{◌≡◌, IfOk};
ghost use Rattle.std.specs.Option.{option_copied};
ghost use Rattle.hs_numbering.specs.Numbering.{Builds};
ghost use Rattle.hs_norm_formula.specs.Formula as spec;
ghost use Rattle.hs_norm_formula.specs.Table.{entry};

use hs_heap::{Disjunct, Formula};
use hs_norm_formula::{Entry, declared, disjunct, normal_formula, places};
use hs_numbering::Numbering;
use hs_pure::NoMemory;
use hs_text::Text;
use hs_tree::{DisjunctTree, FormulaTree};
use indexmap::IndexMap;
use sqlite_items::Items;
use std::alloc::Global;
use std::marker::Model;

/// The declarations in source order. Contracts see the list.
#[derive(Drop)]
pub struct Table {
    entries: Items<Entry>,
    places: IndexMap<String, usize>,
}

impl Model for Table {
    ghost use Rattle.std.specs.Prelude.{◌≡◌, List, ℕ};
    ghost use Rattle.indexmap.specs.IndexMap.{get_by_text};
    ghost use Rattle.hs_norm_formula.specs.declared.table.Entry.{Entry as Declared};
    ghost use Rattle.hs_norm_formula.specs.Table.{place};

    ghost Value = { List Declared };

    ghost view = { λ t. t.entries };

    ghost invariant = { λ t. (q : List ℕ) → get_by_text t.places q ≡ place q t.entries };
}

impl Table {
    pub fn new(alloc: Global, entries: Items<Entry>) -> Result<Table, NoMemory>
        ensures { IfOk result (λ t. t ≡ entries) }
    {
        let places = places(alloc, entries.as_slice())?;
        Ok(Table { entries, places })
    }

    /// What is declared under a name.
    pub fn get(&self, name: &Text) -> Option<&Entry>
        ensures { option_copied result ≡ entry name.now self.now }
    {
        declared(&self.places, self.entries.as_slice(), name)
    }

    /// The normal form of a formula over these declarations.
    pub fn formula(
        &self,
        alloc: Global,
        n: &mut Numbering,
        tree: &FormulaTree,
    ) -> Result<Formula, NoMemory>
        ensures { Builds (spec.formula self.now tree.now n.old) result n.new }
    {
        normal_formula(alloc, n, &self.places, self.entries.as_slice(), tree)
    }

    /// The normal form of a disjunct over these declarations.
    pub fn disjunct(
        &self,
        alloc: Global,
        n: &mut Numbering,
        tree: &DisjunctTree,
    ) -> Result<Disjunct, NoMemory>
        ensures { Builds (spec.disjunct self.now tree.now n.old) result n.new }
    {
        disjunct(alloc, n, &self.places, self.entries.as_slice(), tree)
    }
}
