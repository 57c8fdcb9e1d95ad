//! The definitions of the rows.

use hs_heap::{Defs, Formula, NodeDef, PredDef};
use hs_pure::{NoMemory, Pure, Var};
use hs_text::Text;
use sqlite_items::Items;
use std::alloc::Global;

fn node(alloc: Global, name: &str, names: &[&str]) -> Result<NodeDef, NoMemory> {
    let mut fields = Items::new(alloc);
    for name in names {
        fields.push((Text::from_str(alloc, name)?, None))?;
    }
    Ok(NodeDef {
        name: Text::from_str(alloc, name)?,
        fields,
    })
}

// A predicate with one parameter and no case.
fn pred(alloc: Global, name: &str, bag: bool) -> Result<PredDef, NoMemory> {
    let mut params = Items::new(alloc);
    params.push(Var { number: 2, bag })?;
    Ok(PredDef {
        name: Text::from_str(alloc, name)?,
        params,
        body: Formula {
            cases: Items::new(alloc),
        },
        inv: Pure::And(Items::new(alloc)),
        next: 3,
    })
}

/// The data type `node`, and the predicates `ll` and `bag`.
pub fn defs(alloc: Global) -> Result<Defs, NoMemory> {
    let mut nodes = Items::new(alloc);
    nodes.push(node(alloc, "node", &["val", "next"])?)?;
    let mut preds = Items::new(alloc);
    preds.push(pred(alloc, "ll", false)?)?;
    preds.push(pred(alloc, "bag", true)?)?;
    Ok(Defs {
        nodes,
        preds,
        lemmas: Items::new(alloc),
    })
}
