//! The data types of the rows.

use hs_heap::{Defs, NodeDef};
use hs_pure::NoMemory;
use hs_text::Text;
use sqlite_items::Items;
use std::alloc::Global;

fn node(alloc: Global, name: &str, names: &[&str]) -> Result<NodeDef, NoMemory> {
    let mut fields = Items::new(alloc);
    for name in names {
        fields.push((Text::from_str(alloc, name)?, None))?;
    }
    Ok(NodeDef {
        name: Text::from_str(alloc, name)?,
        fields,
    })
}

/// The data types `node`, `tree`, `nod` and `unit`.
pub fn data_types(alloc: Global) -> Result<Defs, NoMemory> {
    let mut nodes = Items::new(alloc);
    nodes.push(node(alloc, "node", &["val", "next"])?)?;
    nodes.push(node(alloc, "tree", &["key", "left", "right"])?)?;
    nodes.push(node(alloc, "nod", &["a"])?)?;
    nodes.push(node(alloc, "unit", &[])?)?;
    Ok(Defs {
        nodes,
        preds: Items::new(alloc),
        lemmas: Items::new(alloc),
    })
}
