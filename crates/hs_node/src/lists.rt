ghost use Rattle.std.specs.Prelude.{◌≡◌, ◌↔◌, IfOk, IsTrue};

use crate::derivation::Node;
use hs_pure::{NoMemory, Var};
use sqlite_items::Items;
use std::alloc::Global;

pub fn copy_nodes(alloc: Global, nodes: &[Node]) -> Result<Items<Node>, NoMemory>
    ensures { IfOk result (λ all. all ≡ nodes.now) }
{
    let mut all = Items::new(alloc);
    for node in nodes {
        all.push(node.copy(alloc)?)?;
    }
    Ok(all)
}

pub fn same_slots(slots: &[Option<Var>], others: &[Option<Var>]) -> bool
    ensures { IsTrue result ↔ (slots.now ≡ others.now) }
{
    if slots.len() != others.len() {
        return false;
    }
    for (slot, other) in slots.iter().zip(others) {
        if slot != other {
            return false;
        }
    }
    true
}
