//! Variables and valuations under the source names `x`, none, `x` and `S`.

use hs_numbering::Names;
use hs_print::{valuation, variable};
use hs_pure::{NoMemory, Valuation, Var};
use hs_text::Text;
use sqlite_items::Items;
use std::alloc::Global;

// The names, of which the empty text is none.
static NAMES: [&str; 4] = ["x", "", "x", "S"];

static VARIABLES: [(u32, bool); 6] = [
    (0, false),
    (1, false),
    (2, false),
    (3, false),
    (4, true),
    (5, true),
];

fn var(numbered: &(u32, bool)) -> Var {
    Var {
        number: numbered.0,
        bag: numbered.1,
    }
}

fn names(alloc: Global) -> Result<Names, NoMemory> {
    let mut list = Items::new(alloc);
    for name in NAMES {
        if name.is_empty() {
            list.push(None)?;
        } else {
            list.push(Some(Text::from_str(alloc, name)?))?;
        }
    }
    Ok(Names { list })
}

// v1 is -3, V4 is 1 twice and 5 once, and all else is 0.
fn values(alloc: Global) -> Result<Valuation, NoMemory> {
    let mut numbers = Items::new(alloc);
    numbers.push((var(&VARIABLES[1]), -3))?;
    let mut bags = Items::new(alloc);
    let elements = Items::from_slice(alloc, &[(1, 2), (5, 1)])?;
    bags.push((var(&VARIABLES[4]), elements))?;
    Ok(Valuation { numbers, bags })
}

fn push_variables(alloc: Global, out: &mut String, names: &Names) -> Result<(), NoMemory> {
    write!(out, "// Variables 0 to 3, and bags 4 and 5.\n")?;
    for numbered in &VARIABLES {
        let text = variable(alloc, var(numbered), names)?;
        write!(out, "{text}\n")?;
    }
    Ok(())
}

fn push_valuation(alloc: Global, out: &mut String, names: &Names) -> Result<(), NoMemory> {
    let mut all = Items::new(alloc);
    for numbered in &VARIABLES {
        all.push(var(numbered))?;
    }
    let values = values(alloc)?.copy(alloc)?;
    let text = valuation(alloc, all.as_slice(), &values, names)?;
    write!(
        out,
        "\n// The named of these, at a copy of values.\n{text}\n"
    )?;
    Ok(())
}

/// The texts of variables, and of their values.
pub fn push_all(alloc: Global, out: &mut String) -> Result<(), NoMemory> {
    let names = names(alloc)?;
    push_variables(alloc, out, &names)?;
    push_valuation(alloc, out, &names)
}
