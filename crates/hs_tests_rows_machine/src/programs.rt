//! The data types, and the program of a block.

use crate::instrs::instr;
use crate::words::numbers;
use hs_core::{Instr, Method, Program};
use hs_heap::{Defs, NodeDef};
use hs_pure::NoMemory;
use hs_tests_formulas::{NoRow, cut};
use hs_text::Text;
use sqlite_items::Items;
use std::alloc::Global;

fn node(alloc: Global, name: &str, names: &[&str]) -> Result<NodeDef, NoMemory> {
    let mut fields = Items::new(alloc);
    for name in names {
        fields.push((Text::from_str(alloc, name)?, None))?;
    }
    Ok(NodeDef {
        name: Text::from_str(alloc, name)?,
        fields,
    })
}

/// The data types `node` and `cell`.
pub fn data_types(alloc: Global) -> Result<Defs, NoMemory> {
    let mut nodes = Items::new(alloc);
    nodes.push(node(alloc, "node", &["val", "next"])?)?;
    nodes.push(node(alloc, "cell", &["val"])?)?;
    Ok(Defs {
        nodes,
        preds: Items::new(alloc),
        lemmas: Items::new(alloc),
    })
}

// The instructions are the lines that begin with two blanks.
fn code(alloc: Global, text: &str) -> Result<Items<Instr>, NoRow> {
    let mut code = Items::new(alloc);
    for line in text.lines() {
        if let Some(line) = line.strip_prefix("  ") {
            code.push(instr(alloc, line)?)?;
        }
    }
    Ok(code)
}

fn gives(word: &str) -> Result<bool, NoRow> {
    match word {
        "result" => Ok(true),
        "none" => Ok(false),
        _ => Err(NoRow),
    }
}

fn method(alloc: Global, text: &str) -> Result<Method, NoRow> {
    let (head, rest) = cut(text, "\n")?;
    let (name, words) = cut(head, " ")?;
    let (word, words) = cut(words, " ")?;
    let result = gives(word)?;
    let numbers = numbers(alloc, words)?;
    match numbers.as_slice() {
        [params, slots, refs @ ..] => Ok(Method {
            name: Text::from_str(alloc, name)?,
            params: *params,
            slots: *slots,
            result,
            pairs: Items::new(alloc),
            code: code(alloc, rest)?,
            refs: Items::from_slice(alloc, refs)?,
        }),
        _ => Err(NoRow),
    }
}

/// The program of the block's methods.
pub fn program(alloc: Global, block: &str) -> Result<Program, NoRow> {
    let mut methods = Items::new(alloc);
    let (_, parts) = cut(block, "\nmethod ")?;
    for part in parts.split("\nmethod ") {
        methods.push(method(alloc, part)?)?;
    }
    Ok(Program { methods })
}
