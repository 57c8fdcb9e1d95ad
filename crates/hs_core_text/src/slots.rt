//! Slots.

ghost use Rattle.std.specs.Prelude.{◌≡◌, ◌++◌, IfOk, OnOk, codes};
ghost use Rattle.std.specs.String.{string_bytes};
ghost use Rattle.hs_print.specs.Lists.{each_after};
ghost use Rattle.hs_core_text.specs.Slots.{slot_text, slots_text, slot_names};

use hs_numbering::Names;
use hs_text::{NoMemory, Text};
use sqlite_items::Items;
use std::alloc::{AllocError, Global};

pub fn push_slot(out: &mut String, k: u32) -> Result<(), AllocError>
    ensures { OnOk result (string_bytes out.new ≡ string_bytes out.old ++ slot_text k) }
{
    write!(out, "s{k}")
}

fn push_more_slots(out: &mut String, slots: &[u32]) -> Result<(), AllocError>
    ensures { OnOk result (string_bytes out.new ≡ string_bytes out.old ++ each_after (codes ", ") slot_text slots.now) }
{
    for slot in slots {
        write!(out, ", ")?;
        push_slot(out, *slot)?;
    }
    Ok(())
}

// Adds slots with commas between them.
pub fn push_slots(out: &mut String, slots: &[u32]) -> Result<(), AllocError>
    ensures { OnOk result (string_bytes out.new ≡ string_bytes out.old ++ slots_text slots.now) }
{
    let Some((first, rest)) = slots.split_first() else {
        return Ok(());
    };
    push_slot(out, *first)?;
    push_more_slots(out, rest)
}

fn slot_name(alloc: Global, k: u32) -> Result<Text, NoMemory>
    ensures { IfOk result (λ name. name ≡ slot_text k) }
{
    let mut name = String::new(alloc);
    push_slot(&mut name, k)?;
    Ok(Text::new(name))
}

// The slots of a method, as the names of variables.
pub fn slot_names(alloc: Global, count: u32) -> Result<Names, NoMemory>
    ensures { IfOk result (λ names. names ≡ slot_names count) }
{
    let mut list = Items::new(alloc);
    for k in 0..count {
        list.push(Some(slot_name(alloc, k + 1)?))?;
    }
    Ok(Names { list })
}
