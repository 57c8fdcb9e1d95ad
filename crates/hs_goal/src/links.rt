//! Links from keys to smaller keys.

ghost use Rattle.std.specs.Prelude.{◌≡◌, ◌<◌, IfOk, OnOk, nat_eq};
ghost use Rattle.indexmap.specs.IndexMap.{get};
ghost use Rattle.hs_goal.specs.Links.{AllFall, end_of, Shortens, Finds, Joins, AreEnds};

use hs_pure::NoMemory;
use indexmap::IndexMap;
use std::alloc::Global;

fn link(links: &IndexMap<u64, u64>, key: u64) -> Option<u64>
    ensures { result ≡ get nat_eq links.now key }
{
    match links.get(&key) {
        Some(next) => Some(*next),
        None => None,
    }
}

// The end of the links from `key` on.
fn end(links: &IndexMap<u64, u64>, key: u64) -> u64
    requires { AllFall (get nat_eq links.now) }
    ensures { result ≡ end_of (get nat_eq links.now) key }
{
    let mut at = key;
    while let Some(next) = link(links, at) {
        at = next;
    }
    at
}

// A table of the linked keys, each with the end of its links.
pub fn ends(alloc: Global, links: &IndexMap<u64, u64>) -> Result<IndexMap<u64, u64>, NoMemory>
    requires { AllFall (get nat_eq links.now) }
    ensures { IfOk result (λ table. AreEnds (get nat_eq links.now) (get nat_eq table)) }
{
    let mut table = IndexMap::new(alloc);
    let keys = links.keys().as_slice();
    for key in keys {
        table.insert(*key, end(links, *key))?;
    }
    Ok(table)
}

// The same, and the links that are followed become shorter.
fn find(links: &mut IndexMap<u64, u64>, key: u64) -> Result<u64, NoMemory>
    requires { AllFall (get nat_eq links.old) }
    ensures { IfOk result (λ r. Finds (get nat_eq links.old) (get nat_eq links.new) key r) }
{
    let mut at = key;
    while let Some(next) = link(links, at) {
        let Some(after) = link(links, next) else {
            return Ok(next);
        };
        links.insert(at, after)?;
        at = after;
    }
    Ok(at)
}

// Makes the links from both keys end alike.
pub fn join(links: &mut IndexMap<u64, u64>, a: u64, b: u64) -> Result<(), NoMemory>
    requires { AllFall (get nat_eq links.old) }
    ensures { OnOk result (Joins (get nat_eq links.old) (get nat_eq links.new) a b) }
{
    let a = find(links, a)?;
    let b = find(links, b)?;
    if a < b {
        links.insert(b, a)?;
    } else if b < a {
        links.insert(a, b)?;
    }
    Ok(())
}

// Links a key directly to its end.
pub fn shorten(links: &mut IndexMap<u64, u64>, key: u64) -> Result<(), NoMemory>
    requires { AllFall (get nat_eq links.old) }
    ensures { OnOk result (Shortens (get nat_eq links.old) (get nat_eq links.new)) }
{
    let end = find(links, key)?;
    if end < key {
        links.insert(key, end)?;
    }
    Ok(())
}
