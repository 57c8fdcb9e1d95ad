ghost use Rattle.std.specs.Prelude.{◌≡◌, ◌↔◌, IfOk, IsTrue};
ghost use Rattle.hs_heap.specs.Meaning.{is_in};

use hs_heap::Atom;
use hs_pure::{NoMemory, Var};
use sqlite_items::Items;
use std::alloc::Global;

pub fn copy_atoms(alloc: Global, atoms: &[Atom]) -> Result<Items<Atom>, NoMemory>
    ensures { IfOk result (λ all. all ≡ atoms.now) }
{
    let mut all = Items::new(alloc);
    for atom in atoms {
        all.push(atom.copy(alloc)?)?;
    }
    Ok(all)
}

pub fn same_atoms(atoms: &[Atom], others: &[Atom]) -> bool
    ensures { IsTrue result ↔ (atoms.now ≡ others.now) }
{
    if atoms.len() != others.len() {
        return false;
    }
    for (atom, other) in atoms.iter().zip(others) {
        if !atom.same(other) {
            return false;
        }
    }
    true
}

pub fn same_vars(vs: &[Var], ws: &[Var]) -> bool
    ensures { IsTrue result ↔ (vs.now ≡ ws.now) }
{
    if vs.len() != ws.len() {
        return false;
    }
    for (v, w) in vs.iter().zip(ws) {
        if v != w {
            return false;
        }
    }
    true
}

pub fn is_listed(vs: &[Var], v: Var) -> bool
    ensures { result ≡ is_in v vs.now }
{
    for w in vs {
        if v == *w {
            return true;
        }
    }
    false
}
