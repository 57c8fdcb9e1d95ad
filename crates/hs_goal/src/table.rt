//! The classes of variables, found by look-up.

ghost use Rattle.std.specs.Prelude.{◌≡◌, ◌++◌, [], ◌∷◌, IfOk, OnOk, List, nat_eq};
ghost use Rattle.hs_pure.specs.declared.pure.Pure.{Pure as Conjunct};
ghost use Rattle.hs_pure.specs.declared.var.Var.{Var as Variable};
ghost use Rattle.indexmap.specs.IndexMap.{get};
ghost use Rattle.hs_goal.specs.Links.{AllFall, Shortens};
ghost use Rattle.hs_goal.specs.Keys.{key, HaveClasses};
ghost use Rattle.hs_goal.specs.Tables.{representative, joined_in, AreClasses};

use crate::links::{ends, join, shorten};
use hs_pure::{NoMemory, Pure, Var};
use indexmap::IndexMap;
use std::alloc::Global;

/// The classes of variables that equations join: a table of the variables that have a representative other than
/// themselves, all by their keys.
#[derive(Drop)]
pub struct Classes {
    table: IndexMap<u64, u64>,
}

impl Classes {
    // The classes of these conjuncts.
    pub(crate) fn of(alloc: Global, conjuncts: &[Pure]) -> Result<Classes, NoMemory>
        ensures { IfOk result (λ c. AreClasses conjuncts.now c) }
    {
        let mut links = joined(alloc, conjuncts)?;
        shorten_all(&mut links, conjuncts)?;
        let table = ends(alloc, &links)?;
        Ok(Classes { table })
    }

    /// The same classes.
    pub fn copy(&self) -> Result<Classes, NoMemory>
        ensures same { IfOk result (λ c. (v : Variable) → representative c v ≡ representative self.now v) }
    {
        let table = self.table.clone()?;
        Ok(Classes { table })
    }

    /// Whether two variables are in one class. It takes no memory, and two look-ups.
    pub fn same(&self, a: Var, b: Var) -> bool
        ensures { result ≡ joined_in self.now a b }
    {
        self.representative(a) == self.representative(b)
    }

    fn representative(&self, v: Var) -> u64
        ensures { result ≡ representative self.now v }
    {
        let key = key(v);
        match self.table.get(&key) {
            Some(key) => *key,
            None => key,
        }
    }
}

fn key(v: Var) -> u64
    ensures { result ≡ key v }
{
    u64::from(v.number) * 2 + u64::from(v.bag)
}

fn joined(alloc: Global, conjuncts: &[Pure]) -> Result<IndexMap<u64, u64>, NoMemory>
    ensures { IfOk result (λ links. HaveClasses conjuncts.now (get nat_eq links)) }
{
    let mut links = IndexMap::new(alloc);
    for conjunct in conjuncts {
        join_by(&mut links, conjunct)?;
    }
    Ok(links)
}

// Joins what the conjunct equates.
fn join_by(links: &mut IndexMap<u64, u64>, p: &Pure) -> Result<(), NoMemory>
    requires { AllFall (get nat_eq links.old) }
    ensures { OnOk result ((ps : List Conjunct) → HaveClasses ps (get nat_eq links.old) → HaveClasses (ps ++ p.now ∷ []) (get nat_eq links.new)) }
{
    match p.equated() {
        Some((a, b)) => join(links, key(a), key(b)),
        None => Ok(()),
    }
}

// Links the variables that the conjuncts equate directly to the ends.
fn shorten_all(links: &mut IndexMap<u64, u64>, conjuncts: &[Pure]) -> Result<(), NoMemory>
    requires { AllFall (get nat_eq links.old) }
    ensures { OnOk result (Shortens (get nat_eq links.old) (get nat_eq links.new)) }
{
    for conjunct in conjuncts {
        shorten_by(links, conjunct)?;
    }
    Ok(())
}

fn shorten_by(links: &mut IndexMap<u64, u64>, p: &Pure) -> Result<(), NoMemory>
    requires { AllFall (get nat_eq links.old) }
    ensures { OnOk result (Shortens (get nat_eq links.old) (get nat_eq links.new)) }
{
    let Some((a, b)) = p.equated() else {
        return Ok(());
    };
    shorten(links, key(a))?;
    shorten(links, key(b))
}
